// An input of `buildrun` is run.
use crate::told::refused;
use build::{Counts, build};
use std::io;

pub fn case(rt: &impl Print, input: &[u8]) -> io::Result<()> {
    match build(input) {
        Ok(c) => counts(rt, c),
        Err(cause) => refused(rt, cause),
    }
}

fn counts(rt: &impl Print, c: Counts) -> io::Result<()> {
    print!(rt;
        "rounds {} actions {} longest {} path {} ",
        c.rounds, c.actions, c.longest, c.path
    )?;
    print!(rt;
        "parallel {} rest {} peak {} idle {} ",
        c.parallel, c.rest, c.peak, c.idle
    )?;
    print!(rt;
        "requests {} steals {} bare {} idle-victim {}",
        c.requests, c.steals, c.bare, c.idle_victim
    )
}
