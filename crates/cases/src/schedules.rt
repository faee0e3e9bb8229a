// A schedule is checked: one that a file has, or one that a run has written.
use crate::parts::part;
use crate::plans::form_of;
use crate::told::refused;
use checker::check;
use plan_measure::measure;
use scheduler::length::schedule_length;
use scheduler::run::run;
use std::io;

// The plan's length in two bytes, high first, the plan, and the schedule.
pub fn given(rt: &impl Print, input: &[u8]) -> io::Result<()> {
    match part(input) {
        Some((plan, schedule)) => checked(rt, plan, schedule),
        None => rt.print("cut short"),
    }
}

pub fn checked(rt: &impl Print, plan: &[u8], schedule: &[u8]) -> io::Result<()> {
    match check(plan, schedule) {
        Ok(()) => rt.print("accepted"),
        Err(cause) => refused(rt, cause),
    }
}

// An input of `buildrun`: P, the number of choices in two bytes, high first, the choices, and the plan.
pub fn own(rt: &impl Print, input: &[u8]) -> io::Result<()> {
    if let Some((workers, rest)) = input.split_first()
        && let Some((choices, plan)) = part(rest)
    {
        ran(rt, u32::from(*workers), choices, plan)
    } else {
        rt.print("cut short")
    }
}

fn ran(rt: &impl Print, workers: u32, choices: &[u8], plan: &[u8]) -> io::Result<()> {
    let mut schedule = [0u8; 5124];
    match run(plan, workers, choices, &mut schedule) {
        Ok(_) => written(rt, plan, &schedule),
        Err(cause) => refused(rt, cause),
    }
}

// The schedule of a run takes up the beginning of the buffer.
fn written(rt: &impl Print, plan: &[u8], schedule: &[u8]) -> io::Result<()> {
    match measure(plan) {
        Ok(m) => {
            // A plan has no more than 2,048 actions.
            let len = schedule_length(form_of(plan), m.total.min(2048) as usize);
            if let Some(written) = schedule.get(..len) {
                checked(rt, plan, written)?;
            }
            Ok(())
        }
        Err(cause) => refused(rt, cause),
    }
}
