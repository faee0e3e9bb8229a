// Runs the inputs of `buildrun` that standard input holds and compares what comes of each with the answer beside it, which a
// second runner gave (compare/src/bin/runs.rs). An input is its length in two bytes, high first, and its bytes; an answer is a
// refusal's number or 0, and the twelve counts in four bytes each, in the order in which `buildrun` prints them.
#![tactic(auto)]

use build::{Counts, build};
use reading::read_full;
use std::io;
use std::io::Read;

// Prints the number of each run that differs, and then how many there were.
fn main(rt: HostRuntime) -> io::Result<()> {
    let mut from = rt.reader();
    let mut runs = 0;
    for k in 0..65535u32 {
        let Some(same) = next_run(&mut from)? else {
            break;
        };
        if !same {
            println!(rt; "differs: run {k}")?;
        }
        runs = k + 1;
    }
    println!(rt; "runs {runs}")
}

// Reads an input and its answer, where there is another, and runs it: whether that comes of it.
fn next_run<R: Read>(from: &mut R) -> io::Result<Option<bool>> {
    let mut length = [0u8; 2];
    if read_full(from, &mut length)? < 2 {
        return Ok(None);
    }
    let mut room = [0u8; 16384];
    let Some(input) = room.get_mut(..usize::from(u16::from_be_bytes(length))) else {
        return Ok(None);
    };
    if read_full(from, input)? < input.len() {
        return Ok(None);
    }
    let mut answer = [0u8; 49];
    if read_full(from, &mut answer)? < answer.len() {
        return Ok(None);
    }
    Ok(Some(build(input).map_err(u8::from) == expected(&answer)))
}

// The counts, or the number of the refusal.
fn expected(answer: &[u8; 49]) -> Result<Counts, u8> {
    if answer[0] != 0 {
        return Err(answer[0]);
    }
    let (counts, _) = answer[1..].as_chunks();
    let count = |k: usize| u32::from_be_bytes(counts[k]);
    Ok(Counts {
        rounds: count(0),
        actions: count(1),
        longest: count(2),
        path: count(3),
        parallel: count(4),
        rest: count(5),
        peak: count(6),
        idle: count(7),
        requests: count(8),
        steals: count(9),
        bare: count(10),
        idle_victim: count(11),
    })
}
