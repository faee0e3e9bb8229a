// The counts of a run, and what each event makes of them (document 01, "Worker and round"; document 02, L2). Each event has one update,
// and the misses of both kinds one together; no other function names a count that it moves.
// Every turn moves its counts where the tally stands, lent by `&mut` to one of two functions: document 01's named form. Whoever calls
// `acted` or `idled` passes a tally by value.
ghost use Rattle.std.specs.Prelude.{◌≡◌, ◌<◌, Err};
ghost use Rattle.turns.specs.Count.{Countable, Restable, with_idles};
ghost use Rattle.runs.specs.Tally.{no_counts, with_action, with_request, with_steal, with_service};

use runs::miss::Miss;
use runs::tally::Tally;

// As a run begins; `frame` is job 0's.
pub fn no_counts(frame: u32) -> Tally
    ensures { result ≡ no_counts frame }
{
    Tally {
        peak: frame,
        ..Tally::default()
    }
}

// A turn in which an action was worked on; `weight` is that of the living frames after it.
fn count_action(t: &mut Tally, round: u32, weight: u32)
    requires { Countable t.old }
    ensures { t.new ≡ with_action t.old round weight }
{
    t.rounds = round;
    t.actions += 1;
    t.peak = t.peak.max(weight);
}

// So many turns of workers that held nothing when the round began.
fn count_idles(t: &mut Tally, round: u32, turns: u32)
    requires { Restable t.old turns }
    ensures { t.new ≡ with_idles t.old round turns }
{
    t.rounds = round;
    t.idle += turns;
}

// A request.
pub fn with_request(t: Tally) -> Tally
    requires { Countable t }
    ensures { result ≡ with_request t }
{
    Tally {
        requests: t.requests + 1,
        ..t
    }
}

// A service that gave a job.
pub fn with_steal(t: Tally) -> Tally
    requires { Countable t }
    ensures { result ≡ with_steal t }
{
    Tally {
        steals: t.steals + 1,
        ..t
    }
}

// A service that gave none. The kind of a miss is hard to foresee, so that it is added and not branched on.
pub fn with_miss(t: Tally, miss: Miss) -> Tally
    requires { Countable t }
    ensures { result ≡ with_service t (Err miss) }
{
    let bare = u32::from(miss == Miss::Bare);
    Tally {
        bare: t.bare + bare,
        idle_victim: t.idle_victim + (1 - bare),
        ..t
    }
}

// The tally after a turn in which an action was worked on.
pub fn acted(mut t: Tally, round: usize, weight: u32) -> Tally
    requires { (round < 4294967296) × Countable t }
    ensures { result ≡ with_action t round weight }
{
    count_action(&mut t, round as u32, weight);
    t
}

// The tally after so many idle turns of a round in which a turn is taken.
pub fn idled(mut t: Tally, round: usize, turns: u32) -> Tally
    requires { (round < 4294967296) × Restable t turns }
    ensures { result ≡ with_idles t round turns }
{
    count_idles(&mut t, round as u32, turns);
    t
}
