// The rows of a schedule in plan order as one array of words, read and changed by index.
ghost use Rattle.std.specs.Prelude.{◌≡◌, ◌<◌};
ghost use Rattle.turns.specs.Rows.{word};

pub type Rows = [u32; 2048];

// The row of an action that worker w did, whose last round is this one: sixteen times the round, and the worker.
pub fn row(round: usize, w: usize) -> u32
    requires { (round < 65536) × (w < 16) }
    ensures { result ≡ word round w }
{
    (16 * round + w) as u32
}
