// All rounds of a run (document 01, "Worker and round").
ghost use Rattle.std.specs.Prelude.{◌≡◌, ℕ, suc, ◌%◌, ◌≤◌, ◌<◌};
ghost use Rattle.plan.specs.Contract.{Some, ◌⇒◌};
ghost use Rattle.rounds.specs.Rounds.{RunGiven, RunLeft};

use crate::account::{opened, rested, turned};
use crate::steal::{Served, lay, serve, thief};
use crew::line::Lines;
use crew::set::{lowest, rest};
use deques::Deque;
use plan::sheet::Sheet;
use runs::tally::Tally;
use runs::worker::Worker;
use turns::progress::Progress;
use turns::rows::Rows;
use turns::turn::turn;

// The place after `at` among `count` places, and after the last one the first.
fn onward(at: usize, count: usize) -> usize
    requires { (at < count) × (count ≤ 4096) }
    ensures { (k : ℕ) → at ≡ k % count → result ≡ suc k % count }
{
    if at + 1 == count { 0 } else { at + 1 }
}

// Runs the plan by n workers: the counts. The rows of its schedule are then in `rows`; `entering` has how many joins enter each of
// the actions. The sixteen workers are a local of this function, so that none is copied but the one whose turn it is.
pub fn run_rounds(
    n: usize,
    choices: &[u8],
    plan: &Sheet,
    entering: &[u8; 2048],
    rows: &mut Rows,
) -> Tally
    requires { Some (RunGiven n choices.now plan.now entering.now) }
    ensures { RunGiven n choices.now plan.now entering.now
        ⇒ RunLeft n choices.now result rows.new }
{
    let mut workers = [Worker::Idle; 16];
    workers[0] = Worker::Holding(0);
    let mut progress = Progress::start(entering);
    let mut deques = [Deque::EMPTY; 16];
    let mut lines = Lines::new();
    let mut cursor = 0;
    let mut r = 0;
    let mut a = opened(n, plan.frame_of(0));
    // `r` counts the rounds to no end that is known beforehand, so that no `for` is plainer; the walks below go over a set's bits and
    // count no index.
    loop {
        r += 1;
        let were_idle = a.idlers;
        // First half: those who hold a job take their turns; `past` is the first worker whose turn has not come.
        let mut left = a.holders;
        let mut past = 0;
        while left != 0 {
            let w = lowest(left);
            let held = workers[w];
            let after = turn(held, r, w, a.weight, plan, &mut progress, &mut deques, rows);
            workers[w] = after.worker;
            a = turned(a, r, w, w - past, after.worker, after.weight);
            past = w + 1;
            left = rest(left);
        }
        a = rested(a, r, n - past);
        // Job 0's actions stand below the first place of job 1: it has ended where so many are done.
        if progress.done_of(0) == plan.first_of(1) {
            return a.tally;
        }
        // Second half: those who were idle as the round began lay requests.
        left = were_idle;
        while left != 0 {
            let w = lowest(left);
            let victim = choices[cursor];
            workers[w] = Worker::Waiting {
                victim,
                laid: r as u16,
            };
            a = lay(a, w, usize::from(victim), &mut lines);
            cursor = onward(cursor, choices.len());
            left = rest(left);
        }
        // Every victim that has requests serves the oldest.
        left = a.victims;
        while left != 0 {
            let v = lowest(left);
            let Served {
                who,
                taken,
                account,
            } = serve(a, v, &mut lines, &mut deques);
            workers[who] = thief(taken);
            a = account;
            left = rest(left);
        }
    }
}
