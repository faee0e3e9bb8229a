// A set of numbers below 64, workers or jobs, as the bits of one number, 0 lowest.
ghost use Rattle.std.specs.Prelude.{◌≡◌, true, false, ◌-◌, ◌^◌, ◌≤◌, ◌<◌};
ghost use Rattle.crew.specs.Crew.{member, Marked, Lowest, Rest};

// The set of the workers below n but worker 0.
pub fn others(n: usize) -> u64
    requires { (1 ≤ n) × (n ≤ 16) }
    ensures { result ≡ 2 ^ n - 2 }
{
    (1u64 << n) - 2
}

// Whether w is in the set.
pub fn has(set: u64, w: usize) -> bool
    requires { w < 64 }
    ensures { result ≡ member set w }
{
    (set >> w) % 2 == 1
}

// The set with w in it.
pub fn with(set: u64, w: usize) -> u64
    requires { w < 64 }
    ensures { Marked w true set result }
{
    set | (1u64 << w)
}

// The set with w not in it.
pub fn without(set: u64, w: usize) -> u64
    requires { w < 64 }
    ensures { Marked w false set result }
{
    set & !(1u64 << w)
}

// The lowest number in a set that has one.
pub fn lowest(set: u64) -> usize
    requires { 0 < set }
    ensures { Lowest set result }
{
    set.trailing_zeros() as usize
}

// The set without that number.
pub fn rest(set: u64) -> u64
    requires { 0 < set }
    ensures { Rest set result }
{
    set & (set - 1)
}
