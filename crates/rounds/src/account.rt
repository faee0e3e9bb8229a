// What a run holds by value beside its objects: the weight of the living frames, who holds a job, who is idle, which victims have
// requests, and the counts.
ghost use Rattle.std.specs.Prelude.{◌≡◌, true, ◌≤◌, ◌<◌, ltb};
ghost use Rattle.crew.specs.Crew.{member, Marked};
ghost use Rattle.turns.specs.Count.{Restable};
ghost use Rattle.rounds.specs.Account.{opened as opened_of, rested as rested_of};
ghost use Rattle.rounds.specs.Account.{Turnable, TurnNoted, Layable, LayNoted, Servable, ServiceNoted};

use crew::set::{others, with, without};
use runs::miss::Miss;
use runs::tally::Tally;
use runs::worker::Worker;
use turns::count::{acted, idled, no_counts, with_miss, with_request, with_steal};

#[derive(Clone, Copy)]
pub struct Account {
    pub weight: u32,
    pub holders: u64,
    pub idlers: u64,
    pub victims: u64,
    pub tally: Tally,
}

// Before the first round: of n workers number 0 holds job 0, whose frame weighs so much, and the others are idle.
pub fn opened(n: usize, weight: u32) -> Account
    requires { (1 ≤ n) × (n ≤ 16) }
    ensures { result ≡ opened_of n weight }
{
    Account {
        weight,
        holders: 1,
        idlers: others(n),
        victims: 0,
        tally: no_counts(weight),
    }
}

// After the turn of worker w, which worked on an action and is left as it stands now, and after so many idle turns before it.
// Both set the count of rounds to this one, so that it does not matter which is counted first.
pub fn turned(
    account: Account,
    round: usize,
    w: usize,
    gap: usize,
    worker: Worker,
    weight: u32,
) -> Account
    requires { Turnable account round w gap }
    ensures { TurnNoted account round w gap worker weight result }
{
    let tally = idled(acted(account.tally, round, weight), round, gap as u32);
    match worker {
        Worker::Holding(_) => Account {
            weight,
            tally,
            ..account
        },
        Worker::Idle => Account {
            weight,
            holders: without(account.holders, w),
            idlers: with(account.idlers, w),
            tally,
            ..account
        },
        Worker::Waiting { .. } => Account {
            weight,
            holders: without(account.holders, w),
            tally,
            ..account
        },
    }
}

// After the idle turns that end the first half of a round.
pub fn rested(account: Account, round: usize, turns: usize) -> Account
    requires { (round < 4294967296) × (turns ≤ 16) × Restable account.tally turns }
    ensures { result ≡ rested_of account round turns }
{
    Account {
        tally: idled(account.tally, round, turns as u32),
        ..account
    }
}

// After worker w laid a request at victim v.
pub fn laid(account: Account, w: usize, v: usize) -> Account
    requires { Layable account w v }
    ensures { LayNoted account w v result }
{
    Account {
        idlers: without(account.idlers, w),
        victims: with(account.victims, v),
        tally: with_request(account.tally),
        ..account
    }
}

// The victims that have requests, where so many are left at victim v.
fn still_asked(victims: u64, v: usize, left: u64) -> u64
    requires { (v < 16) × (member victims v ≡ true) }
    ensures { Marked v (ltb 0 left) victims result }
{
    if left == 0 {
        without(victims, v)
    } else {
        victims
    }
}

// After victim v served worker w with what was taken from its deque; so many requests are left there.
pub fn served(account: Account, v: usize, left: u64, w: usize, taken: Result<u8, Miss>) -> Account
    requires { Servable account v w }
    ensures { ServiceNoted account v left w taken result }
{
    let victims = still_asked(account.victims, v, left);
    match taken {
        Ok(_) => Account {
            holders: with(account.holders, w),
            victims,
            tally: with_steal(account.tally),
            ..account
        },
        Err(miss) => Account {
            idlers: with(account.idlers, w),
            victims,
            tally: with_miss(account.tally, miss),
            ..account
        },
    }
}
