// All rounds of a run from a pool (document 02, L1).
ghost use Rattle.std.specs.Prelude.{◌≡◌, false, ◌*◌, ◌≤◌, ◌<◌};
ghost use Rattle.plan.specs.Contract.{Some, ◌⇒◌};
ghost use Rattle.crew.specs.Crew.{member, Marked};
ghost use Rattle.rounds.specs.Account.{is_idle};
ghost use Rattle.pool_runner.specs.Rounds.{PoolGiven, PoolLeft, Noted, Marks, tally_of};

use crew::set::{lowest, others, rest, with, without};
use plan::sheet::Sheet;
use plan_measure::work;
use pool_set::Pool;
use pool_turns::turn::{next_cost, rounds_of, turn};
use runs::tally::Tally;
use runs::worker::Worker;
use turns::progress::Progress;
use turns::rows::Rows;

// Whose actions end in which round: the set of those of round r stands at r % 16, for no action takes more than 15.
type Calendar = [u64; 16];

// Worker w works on an action of that cost from the round after `round` on, or on none where the cost is 0 (`rounds_of`). Of the set of marks, d is a
// member where actions end d rounds after that one.
fn note(marks: u64, ends: &mut Calendar, round: usize, cost: usize, w: usize) -> u64
    requires { (round < 65536) × (cost ≤ 15) × (w < 16) }
    ensures { Noted round cost w ends.old ends.new × (Marks round marks ends.old → Marks round result ends.new) }
{
    if cost == 0 {
        return marks;
    }
    let at = (round + cost) % 16;
    ends[at] = with(ends[at], w);
    with(marks, cost)
}

// The set of the idle workers after the turn of worker w, which held a job.
fn idle_after(idlers: u64, w: usize, worker: Worker) -> u64
    requires { (w < 16) × (member idlers w ≡ false) }
    ensures { Marked w (is_idle worker) idlers result }
{
    match worker {
        Worker::Idle => with(idlers, w),
        Worker::Holding(_) | Worker::Waiting { .. } => idlers,
    }
}

// The counts: each worker has one turn in a round, and all that is not worked is idle.
fn counted(n: usize, rounds: usize, worked: u32, peak: u32) -> Tally
    requires { (n ≤ 16) × (rounds ≤ 30720) × (worked ≤ n * rounds) }
    ensures { result ≡ tally_of n rounds worked peak }
{
    Tally {
        rounds: rounds as u32,
        actions: worked,
        idle: (n * rounds) as u32 - worked,
        peak,
        ..Tally::default()
    }
}

// Runs the plan by n workers: the counts. The rows of its schedule are then in `rows`; `entering` has how many joins enter each of
// the actions. It begins behind the first taking, in which worker 0 takes job 0. Rounds in which no action ends are passed over: in
// them nobody takes a job or lets one go. The outer loop ends where job 0 does, at no round that is known before, and the walks go over
// sets from the lowest worker up: no index is counted.
pub fn run_pool(n: usize, plan: &Sheet, entering: &[u8; 2048], rows: &mut Rows) -> Tally
    requires { Some (PoolGiven n plan.now entering.now) }
    ensures { PoolGiven n plan.now entering.now ⇒ PoolLeft n result rows.new }
{
    let mut workers = [Worker::Idle; 16];
    workers[0] = Worker::Holding(0);
    let mut progress = Progress::start(entering);
    let mut pool = Pool::new();
    let mut ends = [0u64; 16];
    let mut marks = note(0, &mut ends, 0, plan.cost_at(0), 0);
    let mut weight = plan.frame_of(0);
    let mut peak = weight;
    let mut idlers = others(n);
    let mut r = 0;
    loop {
        // The next round in which actions end, and those whose actions they are take their turns.
        let by = lowest(marks);
        r += by;
        marks = rest(marks) >> by;
        let mut left = ends[r % 16];
        ends[r % 16] = 0;
        while left != 0 {
            let w = lowest(left);
            let held = workers[w];
            let after = turn(held, r, w, weight, plan, &mut progress, &mut pool, rows);
            let worker = after.worker;
            workers[w] = worker;
            weight = after.weight;
            peak = peak.max(weight);
            idlers = idle_after(idlers, w, worker);
            marks = note(marks, &mut ends, r, rounds_of(worker, plan, &progress), w);
            left = rest(left);
        }
        // Job 0's actions stand below the first place of job 1: it has ended where so many are done.
        if progress.done_of(0) == plan.first_of(1) {
            return counted(n, r, work(plan), peak);
        }
        // Before the next round those who are idle take ready jobs, as long as there are any.
        left = idlers;
        while left != 0 {
            let Some(j) = pool.first() else {
                break;
            };
            let w = lowest(left);
            pool.remove(j);
            workers[w] = Worker::Holding(j as u8);
            idlers = without(idlers, w);
            marks = note(marks, &mut ends, r, next_cost(j, plan, &progress), w);
            left = rest(left);
        }
    }
}
