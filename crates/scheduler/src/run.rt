// A whole run (document 01, "Worker and round" and "Turned down"; document 02, L5).
ghost use Rattle.std.specs.Prelude.{◌≡◌};
ghost use Rattle.plan.specs.Contract.{Some, ◌⇒◌};
ghost use Rattle.runs.specs.Run.{choices_fit};
ghost use Rattle.scheduler.specs.Entry.{run_into, ran_of, Claimed};
ghost use Rattle.scheduler.specs.RunRead.{RunsIn, Answered};
ghost use Rattle.scheduler.specs.Choices.{largest_of};

use crate::length::schedule_length;
use crate::write::write_schedule;
use plan::reader::read_into;
use plan::refusal::Refusal;
use plan::sheet::Sheet;
use rounds::run::run_rounds;
use runs::tally::Tally;

// The largest choice, or 0 where there is none. A loop without a branch, which runs in wide steps: the iterator's `max` took 1.6
// times as long.
fn largest(choices: &[u8]) -> u8
    ensures { result ≡ largest_of choices.now }
{
    let mut most = 0u8;
    for c in choices {
        most = most.max(*c);
    }
    most
}

// Every choice is below n, there are at most 4,096, and some where there is more than one worker.
fn choices_fit(choices: &[u8], n: usize) -> bool
    ensures { result ≡ choices_fit n choices.now }
{
    if 4096 < choices.len() {
        return false;
    }
    if choices.len() == 0 {
        return n <= 1;
    }
    usize::from(largest(choices)) < n
}

// Runs the plan that the arrays hold and writes its schedule in its form: the counts of the run, or why there was none. `entering`
// has how many joins enter each action.
pub fn run_read(
    workers: u32,
    choices: &[u8],
    plan: &Sheet,
    entering: &[u8; 2048],
    schedule: &mut [u8],
) -> Result<Tally, Refusal>
    requires { Some (RunsIn plan.now entering.now) }
    ensures { RunsIn plan.now entering.now
        ⇒ Answered plan.now.form workers choices.now schedule.old result schedule.new }
{
    if workers == 0 {
        return Err(Refusal::Workers);
    }
    if 16 < workers {
        return Err(Refusal::Workers);
    }
    let n = workers as usize;
    if !choices_fit(choices, n) {
        return Err(Refusal::Choices);
    }
    if schedule.len() < schedule_length(plan.form, plan.actions) {
        return Err(Refusal::Short);
    }
    let mut rows = [0u32; 2048];
    let t = run_rounds(n, choices, plan, entering, &mut rows);
    write_schedule(schedule, plan.form, n, plan.actions, &rows);
    Ok(t)
}

// Runs the plan that the bytes hold and writes its schedule: the counts of the run, or why there was none.
pub fn run(plan: &[u8], workers: u32, choices: &[u8], schedule: &mut [u8]) -> Result<Tally, Refusal>
    ensures schedule_after { record { answer = ran_of result; schedule = schedule.new }
        ≡ run_into plan.now workers choices.now schedule.old }
    ensures claimed { Claimed plan.now workers choices.now result schedule.new }
{
    let mut sheet = Sheet::blank();
    let mut entering = [0u8; 2048];
    read_into(plan, &mut sheet, &mut entering)?;
    run_read(workers, choices, &sheet, &entering, schedule)
}
