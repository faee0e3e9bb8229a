// A worker's turn in a run from a pool (document 02, L1 and L5), with its row of the schedule. The steps have the names of those of
// `turns` and stand apart: where a woken parent, a spawner and an heir go differs in each, so that a trait over deques and pool would have
// a function for each step.
ghost use Rattle.std.specs.Prelude.{◌≡◌, get_or};
ghost use Rattle.plan.specs.Contract.{Some, ◌⇒◌};
ghost use Rattle.plan.specs.Plan.{action};
ghost use Rattle.pool_turns.specs.Moments.{Acting, Sent, Weighed, Ending, Buried, Settling, Acted, Turning, TurnTaken};
ghost use Rattle.pool_turns.specs.Moments.{Having, Leaving, cost_of};

use plan::sheet::Sheet;
use pool_set::Pool;
use runs::worker::Worker;
use turns::finish::finish;
use turns::progress::Progress;
use turns::rows::{Rows, row};
use turns::turn::Turned;

// The action at place k, the next one of job j, is done and sends its join; a stalled parent that it wakes is ready in the pool.
fn send(k: usize, j: usize, plan: &Sheet, progress: &mut Progress, pool: &mut Pool)
    requires { Some (Acting k j plan.now progress.old pool.old) }
    ensures { Acting k j plan.now progress.old pool.old ⇒ Sent j progress.new pool.new }
{
    if finish(k, j, plan, progress) {
        pool.add(plan.parent_of(j));
    }
}

// Job j has ended: the worker takes the parent if it has no living child and nobody holds it. A parent without living children is ready,
// so that nobody holds it where it is in the set.
fn bury(j: usize, plan: &Sheet, pool: &mut Pool) -> Worker
    requires { Some (Ending j plan.now pool.old) }
    ensures { Ending j plan.now pool.old ⇒ Buried j result pool.new }
{
    if j == 0 {
        return Worker::Idle;
    }
    let q = plan.parent_of(j);
    if !pool.lose_child(q) {
        return Worker::Idle;
    }
    if !pool.contains(q) {
        return Worker::Idle;
    }
    pool.remove(q);
    Worker::Holding(q as u8)
}

// Where the action did not spawn: the job has ended, or goes on, or stalls.
fn settle(
    k: usize,
    j: usize,
    weight: u32,
    plan: &Sheet,
    progress: &Progress,
    pool: &mut Pool,
) -> Turned
    requires { Some (Settling k j weight plan.now progress.now pool.old) }
    ensures { Settling k j weight plan.now progress.now pool.old
        ⇒ Acted j result progress.now pool.new }
{
    if k + 1 == plan.first_of(j + 1) {
        return Turned {
            worker: bury(j, plan, pool),
            weight: weight - plan.frame_of(j),
        };
    }
    if progress.missing_at(k + 1) == 0 {
        return Turned {
            worker: Worker::Holding(j as u8),
            weight,
        };
    }
    Turned {
        worker: Worker::Idle,
        weight,
    }
}

// The worker does the next action of job j, whose place is k.
fn act(
    k: usize,
    j: usize,
    weight: u32,
    plan: &Sheet,
    progress: &mut Progress,
    pool: &mut Pool,
) -> Turned
    requires { Some (Weighed k j weight plan.now progress.old pool.old) }
    ensures { Weighed k j weight plan.now progress.old pool.old
        ⇒ Acted j result progress.new pool.new }
{
    send(k, j, plan, progress, pool);
    let child = plan.child_at(k);
    if child == 0 {
        return settle(k, j, weight, plan, progress, pool);
    }
    // The spawner goes to the pool and its worker keeps the child.
    pool.add(j);
    pool.gain_child(j);
    Turned {
        worker: Worker::Holding((child - 1) as u8),
        weight: weight + plan.frame_of(child - 1),
    }
}

// The turn of worker w, which holds a job, in the last round of its action.
// Progress, pool and rows stay apart, as in crate `turns`: `finish` takes the progress alone and `bury` the pool, `settle` only reads the
// progress, and the rows are lent to the run, so that one struct of them makes no contract shorter.
pub fn turn(
    worker: Worker,
    round: usize,
    w: usize,
    weight: u32,
    plan: &Sheet,
    progress: &mut Progress,
    pool: &mut Pool,
    rows: &mut Rows,
) -> Turned
    requires { Some (Turning worker round w weight plan.now progress.old pool.old rows.old) }
    ensures { Turning worker round w weight plan.now progress.old pool.old rows.old
        ⇒ TurnTaken worker result progress.new pool.new rows.new }
{
    // A worker whose turn it is holds a job, for the walk goes over those whose actions end and to no other: `else` is never taken.
    let Worker::Holding(held) = worker else {
        return Turned { worker, weight };
    };
    let j = usize::from(held);
    let k = plan.first_of(j) + progress.done_of(j);
    rows[k] = row(round, w);
    act(k, j, weight, plan, progress, pool)
}

// How many rounds the next action of job j takes.
pub fn next_cost(j: usize, plan: &Sheet, progress: &Progress) -> usize
    requires { Some (Having j plan.now progress.now) }
    ensures { Having j plan.now progress.now
        ⇒ (λ d. result ≡ (action d.plan j (get_or d.next j 0)).cost) }
{
    plan.cost_at(plan.first_of(j) + progress.done_of(j))
}

// How many rounds the next action of the job that a worker has takes, or 0 where it has none, as the definition says.
pub fn rounds_of(worker: Worker, plan: &Sheet, progress: &Progress) -> usize
    requires { Some (Leaving worker plan.now progress.now) }
    ensures { Leaving worker plan.now progress.now ⇒ (λ d. result ≡ cost_of d.plan d.next worker) }
{
    match worker {
        Worker::Holding(j) => next_cost(usize::from(j), plan, progress),
        Worker::Idle | Worker::Waiting { .. } => 0,
    }
}
