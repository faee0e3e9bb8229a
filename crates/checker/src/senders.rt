// The senders of joins, lined up by the action that each sends its join to.
ghost use Rattle.std.specs.Prelude.{◌≤◌, ◌≡◌};
ghost use Rattle.plan.specs.Contract.{Some};
ghost use Rattle.checker.specs.Chains.{entry, Chains};
ghost use Rattle.checker.specs.Senders.{line_of, Sending, Senders};

use crate::chains::Lines;
use plan::sheet::Sheet;

// The line that action k stands in: that of the action that its join enters, or one behind all those where it sends none,
// which is never asked for: so each action is lined up, and none is passed over.
// Nothing is known of what stands as job 0's parent, so that any number of 16 bits may stand there: the remainder keeps it an
// index, and what is looked up there is not used, since job 0 sends no join.
fn line_of(k: usize, plan: &Sheet) -> usize
    requires { Some (Sending k plan.now) }
    ensures { (result ≡ line_of plan.now k) × (result ≤ 2048) }
{
    let first = plan.first_of(plan.parent_of(plan.job_at(k)) % 256);
    let sent = plan.target_at(k);
    if sent == 0 { 2048 } else { first + (sent - 1) }
}

// Lines up the senders of joins, each in the line of the action that it sends its join to.
pub fn line_up(plan: &Sheet) -> Lines<2049>
    requires { Some (Senders plan.now) }
    ensures { Chains plan.now.actions (line_of plan.now) (entry result.latest) (entry result.prior) }
{
    let mut senders = Lines::new();
    for k in 0..plan.actions {
        senders.enter(k, line_of(k, plan));
    }
    senders
}
