// Two plans are put under a new root. The file has the lengths of both, each in two bytes, the high one first, both plans, and then
// what is to be written. The frame stands in `rest`, and behind a space the room, where not the whole buffer is lent.
ghost use Rattle.std.specs.Prelude.{◌<◌};

use crate::buffers::{BYTE, BYTES, kept};
use crate::parts::{first_word, number, room};
use crate::plans;
use crate::plans::compared;
use crate::told::refused;
use plan::refusal::Refusal;
use plan_pair::pair;
use std::io;

pub fn case(rt: &impl Print, input: &[u8], rest: Option<&[u8]>) -> io::Result<()> {
    let [high_1, low_1, high_2, low_2, plans @ ..] = input else {
        return rt.print("no lengths");
    };
    let Some(rest) = rest else {
        return rt.print("no frame");
    };
    if let Some((first, behind)) = plans.split_at_checked(length(*high_1, *low_1))
        && let Some((second, expected)) = behind.split_at_checked(length(*high_2, *low_2))
    {
        let (frame, lent) = first_word(rest);
        let frame = number(frame) % 100000;
        let mut bytes = [BYTE; BYTES];
        let a = pair(first, second, frame, &mut bytes[..room(lent)]);
        answered(rt, a, &bytes, expected)
    } else {
        rt.print("too short")
    }
}

pub fn length(high: u8, low: u8) -> usize
    ensures { result < 65536 }
{
    usize::from(u16::from_be_bytes([high, low]))
}

// What was written is what is expected, and a plan.
fn answered(
    rt: &impl Print,
    a: Result<usize, Refusal>,
    bytes: &[u8],
    expected: &[u8],
) -> io::Result<()> {
    match a {
        Ok(n) => {
            print!(rt; "bytes {n}")?;
            compared(rt, expected, bytes, n)?;
            rt.print(", ")?;
            if let Some(plan) = bytes.get(..n) {
                plans::case(rt, plan)?;
            }
            Ok(())
        }
        Err(cause) => {
            refused(rt, cause)?;
            kept(rt, bytes, BYTE, 0, ", kept")
        }
    }
}
