// The progress of a run: what is done of each job, and what its actions still miss.
ghost use Rattle.std.specs.Prelude.{◌≡◌, ◌≢◌, ◌-◌, ◌≤◌, ◌<◌};
ghost use Rattle.turns.specs.Progress.{started, done_of, with_done, spent_at, Spent, missing_at, with_missing};
ghost use Rattle.plan.specs.Sheet.{cost_at};

use plan::sheet::Sheet;

// Of 256 jobs how many actions are done, and how many rounds were spent on each one's next action; of 2,048 actions how many joins
// each one misses. The arrays have a fixed size.
#[derive(Clone, Copy, PartialEq, Eq)]
pub struct Progress {
    pub done: [u8; 256],
    pub spent: [u8; 256],
    pub missing: [u8; 2048],
}

impl Progress {
    // As a run begins: no action is done, and each misses all joins that enter it.
    pub fn start(entering: &[u8; 2048]) -> Progress
        ensures { result ≡ started entering.now }
    {
        Progress {
            done: [0; 256],
            spent: [0; 256],
            missing: *entering,
        }
    }

    // One accessor for each array, since each promises its own word of the definitions.
    // How many actions of job j are done.
    pub fn done_of(&self, j: usize) -> usize
        requires { j < 256 }
        ensures { (result ≡ done_of self.now j) × (result < 256) }
    {
        usize::from(self.done[j])
    }

    // One action more of job j is done.
    pub fn count_done(&mut self, j: usize)
        requires { (j < 256) × (done_of self.old j < 255) }
        ensures { self.new ≡ with_done self.old j }
    {
        self.done[j] += 1;
    }

    // Spends a round on the action at place k, the next one of job j: whether it goes on after this round. Where an action takes one
    // round, none is ever noted.
    pub fn spend(&mut self, j: usize, k: usize, plan: &Sheet) -> bool
        requires { (j < 256) × (k < 2048) × (spent_at self.old j < cost_at plan.now k) × (cost_at plan.now k ≤ 15) }
        ensures { Spent j k plan.now self.old result self.new }
    {
        let cost = plan.cost_at(k);
        if cost == 1 {
            return false;
        }
        let spent = usize::from(self.spent[j]) + 1;
        if spent < cost {
            self.spent[j] = spent as u8;
            return true;
        }
        self.spent[j] = 0;
        false
    }

    // How many joins the action at place k misses.
    pub fn missing_at(&self, k: usize) -> usize
        requires { k < 2048 }
        ensures { (result ≡ missing_at self.now k) × (result < 256) }
    {
        usize::from(self.missing[k])
    }

    // A join is sent to the action at place k: how many it misses then.
    pub fn take_join(&mut self, k: usize) -> u8
        requires { (k < 2048) × (missing_at self.old k ≢ 0) }
        ensures { (result ≡ missing_at self.old k - 1) × (self.new ≡ with_missing self.old k result) }
    {
        self.missing[k] -= 1;
        self.missing[k]
    }
}
