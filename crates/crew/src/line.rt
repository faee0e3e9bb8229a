// The requests at each of sixteen victims: a line for each. Any place of a line is read and taken out at once.
ghost use Rattle.std.specs.Prelude.{◌≡◌, [], ◌∷◌, ◌++◌, ℕ, ◌+◌, ◌-◌, ◌<◌, get_or};
ghost use Rattle.plan.specs.Contract.{Some, ◌⇒◌};
ghost use Rattle.crew.specs.Line.{Lined, without, no_lines, waiting_at, LiningUp, LinedUp, Leaving, Gone, Beside};

// The line of each victim, four bits a worker, the oldest request lowest, and how many stand in it. The memory is fixed: sixteen
// workers are all that can stand in a line.
#[derive(Clone, Copy, PartialEq, Eq)]
pub struct Lines {
    lines: [u64; 16],
    counts: [u64; 16],
}

// The line with worker w behind it.
fn behind(line: u64, len: u64, w: usize) -> u64
    requires { Some (Lined line len) × (len < 16) × (w < 16) }
    ensures { Lined line len ⇒ (λ q. Lined result (len + 1) (q ++ (w ∷ []))) }
{
    ((w as u64) << (4 * len)) + line
}

// The worker at place i of the line.
fn at(line: u64, i: u64) -> usize
    requires { i < 16 }
    ensures { (result < 16) × ((len : ℕ) → Lined line len ⇒ (λ q. result ≡ get_or q i 0)) }
{
    ((line >> (4 * i)) % 16) as usize
}

// The line without its worker at place i.
fn closed_up(line: u64, len: u64, i: u64) -> u64
    requires { Some (Lined line len) × (i < len) }
    ensures { Lined line len ⇒ (λ q. Lined result (len - 1) (without q i)) }
{
    let k = 4 * i;
    (((line >> k) / 16) << k) + (line & ((1u64 << k) - 1))
}

impl Lines {
    // No request at any victim.
    pub fn new() -> Lines
        ensures { result ≡ no_lines }
    {
        Lines {
            lines: [0; 16],
            counts: [0; 16],
        }
    }

    // How many requests wait at victim v.
    pub fn waiting_at(&self, v: usize) -> u64
        requires { v < 16 }
        ensures { result ≡ waiting_at self.now v }
    {
        self.counts[v]
    }

    // Worker w's request goes behind the others at victim v.
    pub fn line_up(&mut self, v: usize, w: usize)
        requires { Some (LiningUp v w self.old) }
        ensures { (LiningUp v w self.old ⇒ LinedUp v w self.new) × Beside v self.old self.new }
    {
        let len = self.counts[v];
        self.lines[v] = behind(self.lines[v], len, w);
        self.counts[v] = len + 1;
    }

    // The request at place i of the line at victim v leaves it: its worker.
    pub fn leave_line(&mut self, v: usize, i: u64) -> usize
        requires { Some (Leaving v i self.old) }
        ensures { (Leaving v i self.old ⇒ Gone v i result self.new) × Beside v self.old self.new }
    {
        let line = self.lines[v];
        let len = self.counts[v];
        self.lines[v] = closed_up(line, len, i);
        self.counts[v] = len - 1;
        at(line, i)
    }
}
