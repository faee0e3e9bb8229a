// An action is done (document 01, "Worker and round", rule 1), in whatever kind of run.
ghost use Rattle.plan.specs.Contract.{Some, ◌⇒◌};
ghost use Rattle.turns.specs.Finish.{Finishing, Finished};

use crate::progress::Progress;
use plan::sheet::Sheet;

// Counts the action at place k, the next one of job j, and sends its join: whether that was the last one missing to the parent's next
// action.
pub fn finish(k: usize, j: usize, plan: &Sheet, progress: &mut Progress) -> bool
    requires { Some (Finishing k j plan.now progress.old) }
    ensures { Finishing k j plan.now progress.old ⇒ Finished j result progress.new }
{
    progress.count_done(j);
    let sent = plan.target_at(k);
    if sent == 0 {
        return false;
    }
    let q = plan.parent_of(j);
    if progress.take_join(plan.first_of(q) + (sent - 1)) != 0 {
        return false;
    }
    progress.done_of(q) == sent - 1
}
