// The buckets that the rows of a schedule lie in, by the block of rounds that a row's last round is of and by its worker, and whether
// two rows clash.
ghost use Rattle.std.specs.Prelude.{◌≤◌, ◌<◌, ◌≡◌};
ghost use Rattle.checker.specs.Buckets.{more_of, bucket_of, Met};

use crate::rows::{Rows, row_of};
use plan::sheet::Sheet;

// How many blocks behind that of its own last round one that clashes with a row may end: one, but in form 1, where an action takes
// one round and a block is one round, none. It is a number, since places and shifts are worked out from it.
pub fn more_of(form: u32) -> usize
    ensures { (result ≡ more_of form) × (result ≤ 1) }
{
    if form == 1 { 0 } else { 1 }
}

// The bucket of a block and a worker.
pub fn bucket_of(block: usize, worker: usize, stride: usize) -> usize
    requires { (block < 4294967296) × (worker < 16) × (stride ≤ 4096) }
    ensures { (result ≡ bucket_of stride block worker) × (result < 4096) }
{
    (block + worker * stride) % 4096
}

// Whether row i clashes with another, which is given with its first round: they are of one worker and have a round in common.
pub fn meets(rows: &Rows, i: usize, first: usize, row: usize, plan: &Sheet) -> bool
    requires { (i < 2048) × (row < 4294967296) }
    ensures { Met rows.now plan.now i first row result }
{
    let other = row_of(rows, i);
    if other % 16 != row % 16 {
        return false;
    }
    if other / 16 < first {
        return false;
    }
    if row / 16 + plan.cost_at(i) <= other / 16 {
        return false;
    }
    true
}
