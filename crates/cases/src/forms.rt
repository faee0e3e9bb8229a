// A plan is turned into form 1 or 2 and back.
use crate::buffers::{BYTE, BYTES, kept};
use crate::parts::room;
use crate::plans::{compared, form_of};
use crate::told::refused;
use plan::refusal::Refusal;
use plan_forms::{to_form_1, to_form_2};
use std::io;

// The room may stand in `rest`.
pub fn case(rt: &impl Print, form: u32, plan: &[u8], rest: Option<&[u8]>) -> io::Result<()> {
    let mut bytes = [BYTE; BYTES];
    match turned(form, plan, &mut bytes[..room(rest)]) {
        Ok(n) => {
            print!(rt; "bytes {n}")?;
            back(rt, plan, &bytes, n)
        }
        Err(cause) => {
            refused(rt, cause)?;
            kept(rt, &bytes, BYTE, 0, ", kept")
        }
    }
}

fn turned(form: u32, plan: &[u8], bytes: &mut [u8]) -> Result<usize, Refusal> {
    match form {
        1 => to_form_1(plan, bytes),
        _ => to_form_2(plan, bytes),
    }
}

// The first n bytes are turned into the form that the plan has.
fn back(rt: &impl Print, plan: &[u8], bytes: &[u8], n: usize) -> io::Result<()> {
    if n <= bytes.len() {
        let mut again = [BYTE; BYTES];
        match turned(form_of(plan), &bytes[..n], &mut again) {
            Ok(m) => {
                print!(rt; ", back {m}")?;
                compared(rt, plan, &again, m)?;
                kept(rt, bytes, BYTE, n, " kept")?;
            }
            Err(cause) => refused(rt, cause)?,
        }
    }
    Ok(())
}
