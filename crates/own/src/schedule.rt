// A run's own schedule (document 01, "Schedule"; document 02, L5): what `run` writes, `check` accepts.
ghost use Rattle.std.specs.Prelude.{◌≡◌, true};
ghost use Rattle.scheduler.specs.Entry.{run_into};

use checker::check;
use plan_measure::measure;
use scheduler::length::schedule_length;
use scheduler::run::run;

// Runs the plan and checks the schedule that was written. No input makes it false: what `run` refuses has no schedule. How long the
// schedule is, the plan's form, its first byte, and its number of actions tell.
pub fn own_schedule(plan: &[u8], workers: u32, choices: &[u8], schedule: &mut [u8]) -> bool
    ensures value { result ≡ true }
    ensures schedule_after { schedule.new
        ≡ (run_into plan.now workers choices.now schedule.old).schedule }
{
    let Ok(_) = run(plan, workers, choices, schedule) else {
        return true;
    };
    let Ok(m) = measure(plan) else {
        return false;
    };
    let n = schedule_length(u32::from(plan[0]), m.total as usize);
    check(plan, &schedule[0..n]).is_ok()
}
