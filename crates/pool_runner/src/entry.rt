// A whole run from a pool (document 02, L1; document 01, "Turned down").
ghost use Rattle.std.specs.Prelude.{◌≡◌};
ghost use Rattle.plan.specs.Contract.{Some, ◌⇒◌};
ghost use Rattle.scheduler.specs.Entry.{ran_of};
ghost use Rattle.scheduler.specs.RunRead.{RunsIn};
ghost use Rattle.pool_runner.specs.Entry.{pool_into, Claimed};
ghost use Rattle.pool_runner.specs.Rounds.{Answered};

use crate::run::run_pool;
use plan::reader::read_into;
use plan::refusal::Refusal;
use plan::sheet::Sheet;
use runs::tally::Tally;
use scheduler::length::schedule_length;
use scheduler::write::write_schedule;

// Runs the plan that was read from a pool and writes its schedule in its form: the counts of the run, or why there was none.
// `entering` has how many joins enter each action. `run_read` of `scheduler` has these steps too, and the choices: which run is meant would
// have to be handed on as a function with a contract of its own.
fn pool_read(
    workers: u32,
    plan: &Sheet,
    entering: &[u8; 2048],
    schedule: &mut [u8],
) -> Result<Tally, Refusal>
    requires { Some (RunsIn plan.now entering.now) }
    ensures { RunsIn plan.now entering.now
        ⇒ Answered plan.now.form workers schedule.old result schedule.new }
{
    if workers == 0 {
        return Err(Refusal::Workers);
    }
    if 16 < workers {
        return Err(Refusal::Workers);
    }
    let n = workers as usize;
    if schedule.len() < schedule_length(plan.form, plan.actions) {
        return Err(Refusal::Short);
    }
    let mut rows = [0u32; 2048];
    let t = run_pool(n, plan, entering, &mut rows);
    write_schedule(schedule, plan.form, n, plan.actions, &rows);
    Ok(t)
}

// Runs the plan that the bytes hold from a central pool and writes its schedule: the counts of the run, or why there was none.
pub fn pool(plan: &[u8], workers: u32, schedule: &mut [u8]) -> Result<Tally, Refusal>
    ensures schedule_after { record { answer = ran_of result; schedule = schedule.new }
        ≡ pool_into plan.now workers schedule.old }
    ensures claimed { Claimed plan.now workers result schedule.new }
{
    let mut sheet = Sheet::blank();
    let mut entering = [0u8; 2048];
    read_into(plan, &mut sheet, &mut entering)?;
    pool_read(workers, &sheet, &entering, schedule)
}
