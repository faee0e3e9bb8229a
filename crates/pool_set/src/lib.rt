// The pool of a run: which of its jobs are ready, and how many children of each job live.
#![tactic(auto)]

ghost use Rattle.std.specs.Prelude.{◌≡◌, ◌≢◌, true, false, suc, ◌-◌, ◌<◌, eqb};
ghost use Rattle.pool_set.specs.Pool.{no_pool, pooled, children_of, Put, First, Counted};

use crew::set::{has, lowest, with, without};

// The ready jobs as a set, job j as bit j % 64 of word j / 64, and the count of living children of each job. The memory is fixed:
// there are 256 jobs.
#[derive(Clone, Copy, PartialEq, Eq)]
pub struct Pool {
    ready: [u64; 4],
    children: [u64; 256],
}

impl Pool {
    // No job in the set, and no living children.
    pub fn new() -> Pool
        ensures { result ≡ no_pool }
    {
        Pool {
            ready: [0; 4],
            children: [0; 256],
        }
    }

    // Job j comes into the set.
    pub fn add(&mut self, j: usize)
        requires { j < 256 }
        ensures { Put j true self.old self.new }
    {
        self.ready[j / 64] = with(self.ready[j / 64], j % 64);
    }

    // Job j goes out of the set. Two methods, as a set has `with` and `without`: one would be told which.
    pub fn remove(&mut self, j: usize)
        requires { j < 256 }
        ensures { Put j false self.old self.new }
    {
        self.ready[j / 64] = without(self.ready[j / 64], j % 64);
    }

    // Whether job j is in the set.
    pub fn contains(&self, j: usize) -> bool
        requires { j < 256 }
        ensures { result ≡ pooled self.now j }
    {
        has(self.ready[j / 64], j % 64)
    }

    // The lowest job in the set, or none where the set is empty.
    pub fn first(&self) -> Option<usize>
        ensures { First self.now result }
    {
        for (k, word) in self.ready.iter().enumerate() {
            if *word != 0 {
                return Some(64 * k + lowest(*word));
            }
        }
        None
    }

    // One more child of job j lives.
    pub fn gain_child(&mut self, j: usize)
        requires { (j < 256) × (children_of self.old j < 256) }
        ensures { Counted j (suc (children_of self.old j)) self.old self.new }
    {
        self.children[j] += 1;
    }

    // One child of job j lives no more: whether it was the last.
    pub fn lose_child(&mut self, j: usize) -> bool
        requires { (j < 256) × (children_of self.old j ≢ 0) }
        ensures { Counted j (children_of self.old j - 1) self.old self.new
            × (result ≡ eqb (children_of self.old j - 1) 0) }
    {
        self.children[j] -= 1;
        self.children[j] == 0
    }
}
