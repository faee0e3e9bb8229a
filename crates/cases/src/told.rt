// What is printed of answers.
use plan::refusal::Refusal;
use std::io;

pub fn refused(rt: &impl Print, cause: Refusal) -> io::Result<()> {
    print!(rt; "refused {}", u8::from(cause))
}

pub fn answered(rt: &impl Print, word: &str, a: Result<usize, Refusal>) -> io::Result<()> {
    match a {
        Ok(n) => print!(rt; "{word} {n}"),
        Err(cause) => refused(rt, cause),
    }
}
