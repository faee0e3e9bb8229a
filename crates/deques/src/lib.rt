// The sixteen deques of a run (document 01, "Worker and round"), each of which has its own places; an array by value holds them, and
// they are read and changed by index.
#![tactic(auto)]

ghost use Rattle.plan.specs.Contract.{Some, ◌⇒◌};
ghost use Rattle.deques.specs.Dequed.{Stacked, Fitting, OnBottom, BottomTaken, TopTaken};

use runs::miss::Miss;
use runs::worker::Worker;

// One deque: the place of its top job, how many jobs it has, and the places of its jobs, the top one first and the bottom one last.
// Its memory is fixed: there are 256 places.
#[derive(Clone, Copy, PartialEq, Eq)]
pub struct Deque {
    top: u8,
    len: u8,
    jobs: [u8; 256],
}

pub type Deques = [Deque; 16];

impl Deque {
    // A deque without a job.
    pub const EMPTY: Deque = Deque {
        top: 0,
        len: 0,
        jobs: [0; 256],
    };

    // Puts job j on the bottom. An empty deque starts at its first place again. A job is of greater number than the one that it is put
    // on, so none stands at a place above its number, and the places never run out.
    pub fn push(&mut self, j: u8)
        requires { Some (Fitting j self.old) }
        ensures { Fitting j self.old ⇒ OnBottom j self.new }
    {
        if self.len == 0 {
            self.top = 0;
        }
        self.jobs[usize::from(self.top) + usize::from(self.len)] = j;
        self.len += 1;
    }

    // Takes the bottom job: the worker that then holds it, or has none.
    pub fn take_bottom(&mut self) -> Worker
        requires { Some (Stacked self.old) }
        ensures { Stacked self.old ⇒ BottomTaken result self.new }
    {
        if self.len == 0 {
            return Worker::Idle;
        }
        self.len -= 1;
        Worker::Holding(self.jobs[usize::from(self.top) + usize::from(self.len)])
    }

    // Takes the top job: that job, or which of the two misses it is. `held` says whether the deque's owner holds a job.
    pub fn take_top(&mut self, held: bool) -> Result<u8, Miss>
        requires { Some (Stacked self.old) }
        ensures { Stacked self.old ⇒ TopTaken held result self.new }
    {
        if self.len == 0 {
            return Err(if held { Miss::Bare } else { Miss::IdleVictim });
        }
        let j = self.jobs[usize::from(self.top)];
        self.top += 1;
        self.len -= 1;
        Ok(j)
    }
}
