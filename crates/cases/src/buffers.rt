// Buffers are filled with one number, to see that a refusal writes nothing, and that nothing beyond an answer is written.
use std::io;

pub const BYTES: usize = 8192;

pub const NUMBERS: usize = 10248;

// What the bytes and the rows' numbers are filled with.
pub const BYTE: u8 = 170;

pub const NUMBER: u16 = 43690;

// Prints the word where the buffer is as it was from place n on. The comparison leaves none out, so that it runs in wide steps: one that
// stopped at the first other number took nearly twice as long for cases that are turned down.
pub fn kept<T: Copy + PartialEq>(
    rt: &impl Print,
    buffer: &[T],
    fill: T,
    n: usize,
    word: &str,
) -> io::Result<()> {
    if let Some(beyond) = buffer.get(n..)
        && beyond.iter().fold(true, |same, x| same & (*x == fill))
    {
        rt.print(word)?;
    }
    Ok(())
}
