// A plan is run from a pool. The file has the plan's length in two bytes, the high one first, the plan, and the schedule that is to
// be written. The worker count stands in `rest`, and behind a space the room, where not the whole buffer is lent.
use crate::buffers::{BYTE, BYTES, kept};
use crate::parts::{first_word, number, part, room};
use crate::schedules::checked;
use crate::told::refused;
use pool_runner::entry::pool;
use runs::tally::Tally;
use std::io;

pub fn case(rt: &impl Print, input: &[u8], rest: Option<&[u8]>) -> io::Result<()> {
    if input.len() < 2 {
        return rt.print("no length");
    }
    let Some(rest) = rest else {
        return rt.print("no workers");
    };
    let Some((plan, expected)) = part(input) else {
        return rt.print("too short");
    };
    let (workers, lent) = first_word(rest);
    let workers = number(workers) % 100000;
    let mut schedule = [BYTE; BYTES];
    match pool(plan, workers, &mut schedule[..room(lent)]) {
        Ok(t) => {
            counts(rt, t)?;
            written(rt, plan, &schedule, expected)
        }
        Err(cause) => {
            refused(rt, cause)?;
            kept(rt, &schedule, BYTE, 0, ", kept")
        }
    }
}

fn counts(rt: &impl Print, t: Tally) -> io::Result<()> {
    print!(rt;
        "rounds {} actions {} peak {} idle {} ",
        t.rounds, t.actions, t.peak, t.idle
    )?;
    print!(rt;
        "requests {} steals {} bare {} idle-victim {}",
        t.requests, t.steals, t.bare, t.idle_victim
    )
}

// The buffer begins with what is expected, which is a schedule of the plan.
fn written(rt: &impl Print, plan: &[u8], schedule: &[u8], expected: &[u8]) -> io::Result<()> {
    let n = expected.len();
    print!(rt; ", bytes {n}")?;
    if let Some(begin) = schedule.get(..n) {
        if begin == expected {
            rt.print(" the same")?;
        }
        kept(rt, schedule, BYTE, n, ", beyond kept")?;
        rt.print(", ")?;
        checked(rt, plan, begin)?;
    }
    Ok(())
}
