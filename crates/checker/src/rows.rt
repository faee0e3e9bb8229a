// The rows of a schedule, each as one number: 16 times its round, and its worker (document 01, "Schedule"). The runner has an array
// of the same type; the checker knows nothing of the runner. One number of 32 bits is a schedule's own row, and half of a struct of
// two.
ghost use Rattle.std.specs.Prelude.{◌<◌, ◌≡◌};
ghost use Rattle.checker.specs.Chains.{entry};

pub type Rows = [u32; 2048];

// Row k.
pub fn row_of(rows: &Rows, k: usize) -> usize
    requires { k < 2048 }
    ensures { (result ≡ entry rows.now k) × (result < 4294967296) }
{
    rows[k] as usize
}
