// Reads P, the choice count, the choices and a plan from standard input, runs the plan, and prints the counts of the run, or
// the number of the refusal (document 01, "Cases"). The work is `build::build`.
#![tactic(auto)]

use build::{Counts, build};
use reading::read_full;
use std::io;

fn main(rt: HostRuntime) -> io::Result<()> {
    let mut input = [0u8; 16384];
    let n = read_full(&mut rt.reader(), &mut input)?;
    match build(&input[..n]) {
        Ok(c) => counts(&rt, c),
        Err(cause) => println!(rt; "refused {}", u8::from(cause)),
    }
}

fn counts(rt: &impl Print, c: Counts) -> io::Result<()> {
    for (name, value) in [
        ("rounds", c.rounds),
        ("actions", c.actions),
        ("longest", c.longest),
        ("path", c.path),
        ("parallel", c.parallel),
        ("rest", c.rest),
        ("peak", c.peak),
        ("idle", c.idle),
        ("requests", c.requests),
        ("steals", c.steals),
        ("bare", c.bare),
        ("idle-victim", c.idle_victim),
    ] {
        println!(rt; "{name} {value}")?;
    }
    Ok(())
}
