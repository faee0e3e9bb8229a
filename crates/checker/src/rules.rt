// The rules of a schedule, over its rows and the plan's arrays (document 01, "Schedule"; document 02, L5).
ghost use Rattle.std.specs.Prelude.{◌<◌, ◌≡◌};
ghost use Rattle.plan.specs.Contract.{Some, ◌⇒◌};
ghost use Rattle.courses.specs.Schedule.{keeps};
ghost use Rattle.checker.specs.Given.{SpawnGiven, StandGiven, RulesGiven};
ghost use Rattle.checker.specs.Rows.{span_at};
ghost use Rattle.checker.specs.Judging.{FirstTold, spawn_round, Stood};

use crate::buckets::{bucket_of, meets, more_of};
use crate::busy::take;
use crate::chains::Lines;
use crate::rows::{Rows, row_of};
use crate::senders::line_up;
use plan::sheet::Sheet;

// Where the walk over the actions stands: the job, the place where its actions end, and the round that the span of the action at
// hand must begin after, where that is of the job: the last round of the action before it there, or of the job's spawn, or 0,
// since rounds begin at 1.
#[derive(Clone, Copy)]
struct Standing {
    job: usize,
    end: usize,
    round: usize,
}

// The last round of the action that spawns job j, which is not job 0.
fn spawn_round(rows: &Rows, j: usize, plan: &Sheet) -> usize
    requires { Some (SpawnGiven j rows.now plan.now) }
    ensures { SpawnGiven j rows.now plan.now
        ⇒ (λ t. result ≡ spawn_round t.plan (span_at rows.now plan.now) j) }
{
    let spawn = plan.first_of(plan.parent_of(j)) + (plan.spawn_of(j) - 1);
    row_of(rows, spawn) / 16
}

// Where the walk stands at action k: in the job where it stood, or, past the end of that, at the beginning of the next.
fn stand(rows: &Rows, k: usize, s: Standing, plan: &Sheet) -> Standing
    requires { Some (StandGiven k s rows.now plan.now) }
    ensures { StandGiven k s rows.now plan.now
        ⇒ (λ t. (k < result.end) × Stood t.plan (span_at rows.now plan.now) k result) }
{
    if k < s.end {
        return s;
    }
    let job = s.job + 1;
    let end = plan.first_of(job + 1);
    let round = spawn_round(rows, job, plan);
    Standing { job, end, round }
}

// The first round of the span of row k, unless that would begin before round 1 or the worker is not below the worker count.
fn first_round(rows: &Rows, k: usize, workers: usize, plan: &Sheet) -> Option<usize>
    requires { k < 2048 }
    ensures { FirstTold (span_at rows.now plan.now k) workers result }
{
    let row = row_of(rows, k);
    let cost = plan.cost_at(k);
    if workers <= row % 16 {
        return None;
    }
    if row / 16 < cost {
        return None;
    }
    Some(row / 16 + 1 - cost)
}

// Whether the rows keep the rules of a schedule: labelled loops over actions, joins and worker-round clashes, left from the
// innermost on the first breach. What an action must follow in its job is carried along (`Standing`), so that the plan is
// looked up once for each job. The rows seen so far lie in buckets, by the worker and by the block of rounds that the last round
// is of, each in a chain from the latest back. A block is 16 rounds and no action takes more, so a row that clashes with
// the one at hand ends in a block from that of its first round to the one behind that of its last: these are at most three, looked
// in from the last down. In form 1 an action takes one round, a block is one round, and it is one block. Of each worker a bucket
// takes rows of one block, no two with the same last round: at most 16, and in form 1 one, so that no row is compared with more
// than 48 of each worker. Where every block is below the stride, no two workers share a bucket. In form 2 the chains are walked
// only where a set of `busy` has a round of the row: else it clashes with no row before it.
pub fn rules_kept(workers: usize, rows: &Rows, plan: &Sheet) -> bool
    requires { Some (RulesGiven workers rows.now plan.now) }
    ensures { RulesGiven workers rows.now plan.now ⇒ (λ t. result ≡ keeps t.plan workers t.rows) }
{
    let senders = line_up(plan);
    let mut buckets: Lines<4096> = Lines::new();
    let mut busy = [0u16; 4096];
    let stride = 4096 / workers;
    let more = more_of(plan.form);
    let shift = 4 * more;
    let mut standing = Standing {
        job: 0,
        end: plan.first_of(1),
        round: 0,
    };
    let mut kept = true;
    'actions: for k in 0..plan.actions {
        let row = row_of(rows, k);
        let Some(first) = first_round(rows, k, workers, plan) else {
            kept = false;
            break 'actions;
        };
        let here = stand(rows, k, standing, plan);
        if first <= here.round {
            kept = false;
            break 'actions;
        }
        let mut sender = senders.latest_in(k);
        'joins: while let Some(x) = sender {
            if first <= row_of(rows, x) / 16 {
                kept = false;
                break 'actions;
            }
            sender = senders.back_from(x);
        }
        let home = row / 16 >> shift;
        let low = first >> shift;
        let mut block = home + more;
        let mut other = buckets.latest_in(bucket_of(block, row % 16, stride));
        let free = take(more, first, row, stride, &mut busy);
        'clashes: while !free {
            let Some(i) = other else {
                if block <= low {
                    break 'clashes;
                }
                block -= 1;
                other = buckets.latest_in(bucket_of(block, row % 16, stride));
                continue 'clashes;
            };
            if meets(rows, i, first, row, plan) {
                kept = false;
                break 'actions;
            }
            other = buckets.back_from(i);
        }
        buckets.enter(k, bucket_of(home, row % 16, stride));
        standing = Standing {
            round: row / 16,
            ..here
        };
    }
    kept
}
