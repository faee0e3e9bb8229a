// Runs the cases that standard input lists, a line for each, and prints a line of what comes of each: document 01's cases, each
// refusal by itself and in its order, inputs on each side of each limit, and runs that tell the tempting errors apart. A line of
// the list is a kind, the name of a file of data/, for a table the form that it is to be closed in, for a room two numbers, for a
// pair the frame, for a pool the worker count, and for `into1`, `into2`, a pair and a pool the room, where not the whole buffer is
// lent. Files, list and answers are written by tools/cases.rs.
#![tactic(auto)]

mod buffers;
mod builds;
mod forms;
mod pairs;
mod parts;
mod plans;
mod pool_runs;
mod rooms;
mod schedules;
mod tables;
mod told;

use parts::first_word;
use reading::read_full;
use std::rt::Files;
use std::{fs, io};

fn main(rt: HostRuntime) -> io::Result<()> {
    let mut list = [0u8; 65536];
    let n = read_full(&mut rt.reader(), &mut list)?;
    if n == list.len() {
        rt.print("the list is too long\n")?;
    }
    let cases = each(&rt, &list[..n])?;
    println!(rt; "cases {cases}")
}

// Runs the case of each line: how many there are.
fn each(rt: &(impl Files + Print), list: &[u8]) -> io::Result<usize> {
    let mut cases = 0;
    for (k, line) in list.split_inclusive(|b| *b == b'\n').enumerate() {
        case(rt, line.strip_suffix(b"\n").unwrap_or(line))?;
        cases = k + 1;
    }
    Ok(cases)
}

// The line stands in front of what comes of it, so that a wrong list shows.
fn case(rt: &(impl Files + Print), line: &[u8]) -> io::Result<()> {
    rt.write_all(line)?;
    let (kind, Some(rest)) = first_word(line) else {
        return rt.print(": no name\n");
    };
    let (name, rest) = first_word(rest);
    rt.print(": ")?;
    named(rt, kind, name, rest)?;
    rt.print("\n")
}

// The case of a file by its name. What follows the name in the line is `rest`.
fn named<R: Files + Print>(
    rt: &R,
    kind: &[u8],
    name: &[u8],
    rest: Option<&[u8]>,
) -> io::Result<()> {
    if let Ok(name) = str::from_utf8(name)
        && let Ok(file) = fs::open(rt, name)
    {
        opened(rt, file, kind, rest)
    } else {
        rt.print("not opened")
    }
}

// The case of an open file.
fn opened<R: Files + Print>(
    rt: &R,
    mut file: R::File,
    kind: &[u8],
    rest: Option<&[u8]>,
) -> io::Result<()> {
    let mut input = [0u8; 20500];
    let len = read_full(&mut file, &mut input)?;
    drop(file);
    if len == input.len() {
        return rt.print("too long");
    }
    of_kind(rt, kind, &input[..len], rest)
}

fn of_kind(rt: &impl Print, kind: &[u8], input: &[u8], rest: Option<&[u8]>) -> io::Result<()> {
    match kind {
        b"plan" => plans::case(rt, input),
        b"table" => tables::case(rt, input, rest),
        b"room" => rooms::case(rt, input, rest),
        b"into1" => forms::case(rt, 1, input, rest),
        b"into2" => forms::case(rt, 2, input, rest),
        b"pair" => pairs::case(rt, input, rest),
        b"run" => builds::case(rt, input),
        b"pool" => pool_runs::case(rt, input, rest),
        b"check" => schedules::given(rt, input),
        b"own" => schedules::own(rt, input),
        _ => rt.print("no such kind"),
    }
}
