// A table is written to plan bytes, in the form told, and from there to rows again.
use crate::buffers::{BYTE, BYTES, NUMBER, NUMBERS, kept};
use crate::parts::number;
use crate::told::refused;
use plan_table::{plan_to_table, table_to_plan};
use std::io;

// The form stands in `rest`: where none does it is 0, which is refused as every number but 1 and 2 is.
pub fn case(rt: &impl Print, input: &[u8], rest: Option<&[u8]>) -> io::Result<()> {
    let form = rest.map_or(0, number);
    let mut rows = [NUMBER; NUMBERS];
    let (pairs, _) = input.as_chunks();
    for (row, pair) in rows.iter_mut().zip(pairs) {
        *row = u16::from_be_bytes(*pair);
    }
    let mut bytes = [BYTE; BYTES];
    match table_to_plan(form, &rows[..pairs.len().min(NUMBERS)], &mut bytes) {
        Ok(n) => {
            print!(rt; "bytes {n}")?;
            back(rt, &rows, &bytes, n)
        }
        Err(cause) => refused(rt, cause),
    }
}

// Both arrays of rows were filled with one number: they are equal where the table is, and where nothing beyond it was written.
fn back(rt: &impl Print, rows: &[u16; NUMBERS], bytes: &[u8], n: usize) -> io::Result<()> {
    if n <= bytes.len() {
        let mut again = [NUMBER; NUMBERS];
        match plan_to_table(&bytes[..n], &mut again) {
            Ok(m) => {
                print!(rt; ", rows {m}")?;
                if *rows == again {
                    rt.print(" the same, beyond")?;
                }
                kept(rt, bytes, BYTE, n, " kept")?;
            }
            Err(cause) => refused(rt, cause)?,
        }
    }
    Ok(())
}
