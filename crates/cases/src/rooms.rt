// A plan is written into room for a number of rows' numbers, and its table into room for a number of bytes.
use crate::buffers::{BYTES, NUMBERS};
use crate::parts::{first_word, number};
use crate::plans::form_of;
use crate::told::{answered, refused};
use plan_table::{plan_to_table, table_to_plan};
use std::io;

// The two numbers stand in `rest`, with a space between.
pub fn case(rt: &impl Print, plan: &[u8], rest: Option<&[u8]>) -> io::Result<()> {
    let Some(rest) = rest else {
        return rt.print("no numbers");
    };
    let (numbers, bytes) = first_word(rest);
    into_rows(rt, plan, number(numbers) as usize)?;
    into_bytes(rt, plan, bytes.map_or(0, number) as usize)
}

fn into_rows(rt: &impl Print, plan: &[u8], room: usize) -> io::Result<()> {
    print!(rt; "room {room} ")?;
    let mut rows = [0u16; NUMBERS];
    match rows.get_mut(..room) {
        Some(lent) => answered(rt, "rows", plan_to_table(plan, lent)),
        None => rt.print("above 10248"),
    }
}

fn into_bytes(rt: &impl Print, plan: &[u8], room: usize) -> io::Result<()> {
    print!(rt; ", room {room} ")?;
    let mut rows = [0u16; NUMBERS];
    match plan_to_table(plan, &mut rows) {
        Ok(n) => bytes_of(rt, form_of(plan), &rows, n, room),
        Err(cause) => refused(rt, cause),
    }
}

fn bytes_of(rt: &impl Print, form: u32, rows: &[u16], n: usize, room: usize) -> io::Result<()> {
    let mut bytes = [0u8; BYTES];
    if n <= rows.len() / 5
        && let Some(lent) = bytes.get_mut(..room)
    {
        answered(rt, "bytes", table_to_plan(form, &rows[..5 * n], lent))
    } else {
        rt.print("above 8192")
    }
}
