// The checker (document 01, "Schedule"): whether a schedule's bytes are well formed for a plan and keep the rules of a run.
// It relies on what the crates below promise, and cites their laws only.
#![tactic(auto)]

ghost use Rattle.std.specs.Prelude.{◌≡◌};
ghost use Rattle.courses.specs.Schedule.{checked};
ghost use Rattle.checker.specs.Answer.{judged_of};

use form::read_schedule;
use plan::reader::read_into;
use plan::refusal::Refusal;
use plan::sheet::Sheet;
use rules::rules_kept;

mod buckets;
mod busy;
mod chains;
mod form;
mod rows;
mod rules;
mod senders;

// Whether the schedule's bytes are a schedule for the plan that the bytes hold, or why not: the plan's own refusals, then 11,
// then 12.
pub fn check(plan: &[u8], schedule: &[u8]) -> Result<(), Refusal>
    ensures { judged_of result ≡ checked plan.now schedule.now }
{
    let mut sheet = Sheet::blank();
    let mut entering = [0u8; 2048];
    read_into(plan, &mut sheet, &mut entering)?;
    let mut rows = [0u32; 2048];
    let Some(workers) = read_schedule(sheet.form, schedule, sheet.actions, &mut rows) else {
        return Err(Refusal::Schedule);
    };
    if !rules_kept(workers, &rows, &sheet) {
        return Err(Refusal::Rule);
    }
    Ok(())
}
