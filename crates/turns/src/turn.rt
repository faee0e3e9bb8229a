// A worker's turn (document 01, "Worker and round", rules 1 to 3; document 02, L5), with its row of the schedule.
ghost use Rattle.plan.specs.Contract.{Some, ◌⇒◌};
ghost use Rattle.turns.specs.Moments.{Sending, Acting, Sent, Settling, Acted, Turning, TurnTaken};

use crate::finish::finish;
use crate::progress::Progress;
use crate::rows::{Rows, row};
use deques::Deques;
use plan::sheet::Sheet;
use runs::worker::Worker;

// What a turn leaves of the worker, and the weight of the living frames after it.
#[derive(Clone, Copy)]
pub struct Turned {
    pub worker: Worker,
    pub weight: u32,
}

// 1. The action at place k is done and sends its join; where that was the last one missing to the parent's next action, the
// parent goes on the bottom of deque w.
fn send(k: usize, j: usize, w: usize, plan: &Sheet, progress: &mut Progress, deques: &mut Deques)
    requires { Some (Sending k j w plan.now progress.old deques.old) }
    ensures { Sending k j w plan.now progress.old deques.old
        ⇒ Sent j w progress.new deques.new }
{
    if finish(k, j, plan, progress) {
        deques[w].push(plan.parent_of(j) as u8);
    }
}

// 3, where the action did not spawn: the job goes on, or the worker takes the bottom job of its own deque, or has none.
fn settle(
    k: usize,
    j: usize,
    w: usize,
    weight: u32,
    plan: &Sheet,
    progress: &Progress,
    deques: &mut Deques,
) -> Turned
    requires { Some (Settling k j w weight plan.now progress.now deques.old) }
    ensures { Settling k j w weight plan.now progress.now deques.old
        ⇒ Acted j w result progress.now deques.new }
{
    if k + 1 == plan.first_of(j + 1) {
        return Turned {
            worker: deques[w].take_bottom(),
            weight: weight - plan.frame_of(j),
        };
    }
    if progress.missing_at(k + 1) == 0 {
        return Turned {
            worker: Worker::Holding(j as u8),
            weight,
        };
    }
    Turned {
        worker: deques[w].take_bottom(),
        weight,
    }
}

// Worker w does the next action of job j, whose place is k.
fn act(
    k: usize,
    j: usize,
    w: usize,
    weight: u32,
    plan: &Sheet,
    progress: &mut Progress,
    deques: &mut Deques,
) -> Turned
    requires { Some (Acting k j w weight plan.now progress.old deques.old) }
    ensures { Acting k j w weight plan.now progress.old deques.old
        ⇒ Acted j w result progress.new deques.new }
{
    send(k, j, w, plan, progress, deques);
    let child = plan.child_at(k);
    if child == 0 {
        return settle(k, j, w, weight, plan, progress, deques);
    }
    // 2. The spawner goes on the bottom and the worker holds the child.
    deques[w].push(j as u8);
    Turned {
        worker: Worker::Holding((child - 1) as u8),
        weight: weight + plan.frame_of(child - 1),
    }
}

// The turn of worker w, which holds a job.
// Progress, deques and rows stay apart, for one struct of them makes no contract shorter: `finish` takes the progress alone, `settle`
// only reads it, a run from a pool has no deques, and the rows are lent to the run.
pub fn turn(
    worker: Worker,
    round: usize,
    w: usize,
    weight: u32,
    plan: &Sheet,
    progress: &mut Progress,
    deques: &mut Deques,
    rows: &mut Rows,
) -> Turned
    requires { Some (Turning worker round w weight plan.now progress.old deques.old rows.old) }
    ensures { Turning worker round w weight plan.now progress.old deques.old rows.old
        ⇒ TurnTaken worker w result progress.new deques.new rows.new }
{
    // A worker whose turn it is holds a job, for the walk over the set of holders goes to no other: `else` is never taken.
    let Worker::Holding(held) = worker else {
        return Turned { worker, weight };
    };
    let j = usize::from(held);
    let k = plan.first_of(j) + progress.done_of(j);
    if progress.spend(j, k, plan) {
        return Turned { worker, weight };
    }
    rows[k] = row(round, w);
    act(k, j, w, weight, plan, progress, deques)
}
