// The rounds that the rows seen so far take, in sets: of each bucket the 16 rounds of a block as bits, the first lowest.
ghost use Rattle.std.specs.Prelude.{◌+◌, ◌/◌, ◌%◌, ◌≤◌, ◌<◌, ◌≡◌, length};
ghost use Rattle.checker.specs.Rows.{span_from};
ghost use Rattle.checker.specs.Busy.{Put, Taken};

use crate::buckets::bucket_of;

// Puts rounds of a block into the set of a bucket: whether none of them was there.
fn put(busy: &mut [u16; 4096], bucket: usize, rounds: u32) -> bool
    requires { (bucket < 4096) × (rounds < 65536) × (length busy.old ≡ 4096) }
    ensures { Put bucket rounds busy.old busy.new result }
{
    let there = u32::from(busy[bucket]);
    busy[bucket] = (there | rounds) as u16;
    there & rounds == 0
}

// Puts the rounds of a row, which is given with its first one, into the sets of the two blocks that they may be of: whether none of
// them was there. One that was there may be of another block or worker. Where only a row's own block is looked in, which is so in
// form 1, sets would save nothing, and none are kept.
pub fn take(more: usize, first: usize, row: usize, stride: usize, busy: &mut [u16; 4096]) -> bool
    requires { (first ≤ row / 16) × (row / 16 < first + 16) × (row < 4294967296) × (stride ≤ 4096) × (length busy.old ≡ 4096) }
    ensures { Taken more stride (span_from first row) busy.old busy.new result }
{
    if more == 0 {
        return false;
    }
    // as many ones as there are rounds
    let rounds = 65535u32 >> (first + 15 - row / 16) << (first % 16);
    let block = first / 16;
    let low = put(busy, bucket_of(block, row % 16, stride), rounds % 65536);
    let high = put(busy, bucket_of(block + 1, row % 16, stride), rounds / 65536);
    low & high
}
