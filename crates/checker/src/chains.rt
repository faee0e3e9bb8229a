// Places in lines, each line a chain from its latest place back.
ghost use Rattle.std.specs.Prelude.{ℕ, ◌<◌, ◌≡◌, length};
ghost use Rattle.checker.specs.Chains.{entry, plus_one, Chains, Entered};

// N lines: `latest` has of each the latest place in it, and `prior` of each place the one before it in its line, each as the place
// plus 1, or 0 for none: the arrays have 16 bits for a place.
#[derive(Drop)]
pub struct Lines<const N: usize> {
    latest: [u16; N],
    prior: [u16; 2048],
    ghost heads: { length latest ≡ N },
    ghost links: { length prior ≡ 2048 },
}

impl<const N: usize> Lines<N> {
    // No place stands in a line.
    pub fn new() -> Self
        ensures { (key : ℕ → ℕ) → Chains 0 key (entry result.latest) (entry result.prior) }
    {
        Lines {
            latest: [0; N],
            prior: [0; 2048],
        }
    }

    // The latest place in a line.
    pub fn latest_in(&self, line: usize) -> Option<usize>
        requires { line < N }
        ensures { plus_one result ≡ entry self.now.latest line }
    {
        usize::from(self.latest[line]).checked_sub(1)
    }

    // The place before another in its line.
    pub fn back_from(&self, at: usize) -> Option<usize>
        requires { at < 2048 }
        ensures { plus_one result ≡ entry self.now.prior at }
    {
        usize::from(self.prior[at]).checked_sub(1)
    }

    // Place k comes first in a line.
    pub fn enter(&mut self, k: usize, line: usize)
        requires { (k < 2048) × (line < N) }
        ensures { Entered k line self.old.latest self.old.prior self.new.latest self.new.prior }
    {
        self.prior[k] = self.latest[line];
        self.latest[line] = (k + 1) as u16;
    }
}
