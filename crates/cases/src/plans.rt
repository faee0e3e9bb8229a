// A plan is measured, written to a table and from there to bytes again.
use crate::buffers::{BYTE, BYTES, NUMBER, NUMBERS, kept};
use crate::told::refused;
use plan_measure::{Measures, measure};
use plan_table::{plan_to_table, table_to_plan};
use std::io;

pub fn case(rt: &impl Print, plan: &[u8]) -> io::Result<()> {
    match measure(plan) {
        Ok(m) => {
            measures(rt, m)?;
            there(rt, plan)
        }
        Err(cause) => refused(rt, cause),
    }
}

fn measures(rt: &impl Print, m: Measures) -> io::Result<()> {
    print!(rt; "total {} work {} longest {} ", m.total, m.work, m.longest)?;
    print!(rt; "path {} parallel {} rest {}", m.path, m.parallel, m.rest)
}

fn there(rt: &impl Print, plan: &[u8]) -> io::Result<()> {
    let mut rows = [NUMBER; NUMBERS];
    match plan_to_table(plan, &mut rows) {
        Ok(n) => {
            print!(rt; ", rows {n}")?;
            back(rt, plan, &rows, n)
        }
        Err(cause) => refused(rt, cause),
    }
}

fn back(rt: &impl Print, plan: &[u8], rows: &[u16], n: usize) -> io::Result<()> {
    if n <= rows.len() / 5 {
        let mut bytes = [BYTE; BYTES];
        match table_to_plan(form_of(plan), &rows[..5 * n], &mut bytes) {
            Ok(m) => {
                print!(rt; ", bytes {m}")?;
                compared(rt, plan, &bytes, m)?;
                kept(rt, rows, NUMBER, 5 * n, " kept")?;
            }
            Err(cause) => refused(rt, cause)?,
        }
    }
    Ok(())
}

// The form of a plan: its first byte, or 0, which is refused as every number but 1 and 2 is.
pub fn form_of(plan: &[u8]) -> u32 {
    plan.first().map_or(0, |form| u32::from(*form))
}

// The first n bytes are the plan, and beyond them stands what stood there.
pub fn compared(rt: &impl Print, plan: &[u8], bytes: &[u8], n: usize) -> io::Result<()> {
    if bytes.get(..n) == Some(plan) {
        rt.print(" the same,")?;
    }
    kept(rt, bytes, BYTE, n, " beyond")
}
