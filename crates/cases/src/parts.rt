// The parts of a line and of a file.
ghost use Rattle.std.specs.Prelude.{◌≤◌};

use crate::buffers::BYTES;

// The word at the beginning, and what is behind its space, where it has one.
pub fn first_word(s: &[u8]) -> (&[u8], Option<&[u8]>) {
    let mut parts = s.splitn(2, |b| *b == b' ');
    (parts.next().unwrap_or(s), parts.next())
}

// The number that the last five digits spell. A space counts as a 0.
pub fn number(digits: &[u8]) -> u32 {
    digits
        .iter()
        .fold(0, |n, digit| n % 10000 * 10 + u32::from(*digit) % 16)
}

// How many bytes are lent: the whole buffer, where the line does not tell the room.
pub fn room(told: Option<&[u8]>) -> usize
    ensures { result ≤ 8192 }
{
    told.map_or(BYTES, |digits| BYTES.min(number(digits) as usize))
}

// The part whose length stands in front of it in two bytes, high first, and what is behind it.
pub fn part(input: &[u8]) -> Option<(&[u8], &[u8])> {
    let (length, behind) = input.split_first_chunk()?;
    behind.split_at_checked(usize::from(u16::from_be_bytes(*length)))
}
