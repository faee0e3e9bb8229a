// Bit fields, most significant bit first (document 01, "Plan"): one reader and one writer for every width up to 24 bits, and
// the window of bytes that fields are cut from.
ghost use Rattle.std.specs.Prelude.{◌≡◌, ℕ, ◌+◌, ◌*◌, ◌-◌, ◌/◌, ◌^◌, ◌≤◌, ◌<◌, List, [], length, get_or, drop};
ghost use Rattle.fields.specs.Field.{field_at, step_of, bits_of};
ghost use Rattle.fields.specs.FieldParts.{Windowed, Loose};
ghost use Rattle.fields.specs.Sink.{Sound, Room, Put, Done};

// What a field has, and the next place.
#[derive(Clone, Copy)]
pub struct Field {
    pub value: u32,
    pub next: usize,
}

// The four bytes from some byte on as one number, with zeros for those behind the end, and how many of their bits are there.
#[derive(Clone, Copy)]
pub struct Window {
    pub bits: u64,
    pub held: usize,
}

// Byte i, or 0 behind the end.
fn byte_or_0(s: &[u8], i: usize) -> u8
    ensures { result ≡ get_or s.now i 0 }
{
    s.get(i).copied().unwrap_or(0)
}

// How many bits there are from byte i on, where less than a window is left.
fn bits_left(s: &[u8], i: usize) -> usize
    requires { length s.now < i + 4 }
    ensures { result ≡ 8 * (length s.now - i) }
{
    8 * s.len().saturating_sub(i)
}

// The window from byte i on.
pub fn window_at(s: &[u8], i: usize) -> Window
    requires { i < 4294967296 }
    ensures { Windowed result (drop i s.now) }
{
    if i + 4 <= s.len() {
        return Window {
            bits: u64::from(u32::from_be_bytes([s[i], s[i + 1], s[i + 2], s[i + 3]])),
            held: 32,
        };
    }
    Window {
        bits: u64::from(u32::from_be_bytes([
            byte_or_0(s, i),
            byte_or_0(s, i + 1),
            byte_or_0(s, i + 2),
            byte_or_0(s, i + 3),
        ])),
        held: bits_left(s, i),
    }
}

// The field of `width` bits at bit `at` of a window: what stands before it is shifted out to the left, and what stands behind it
// to the right. No answer where the bits run out before its end.
pub fn cut_in(w: Window, at: usize, width: usize) -> Option<Field>
    requires { at + width ≤ 32 }
    ensures { (t : List ℕ) → Windowed w t → step_of result ≡ field_at t width at }
{
    let next = at + width;
    if w.held < next {
        return None;
    }
    let value = (w.bits << at) % 4294967296 >> (32 - width);
    Some(Field {
        value: value as u32,
        next,
    })
}

// The field of `width` bits at place `at`, counted in bits, if so many are there.
pub fn cut(s: &[u8], at: usize, width: usize) -> Option<Field>
    requires { (at < 4294967296) × (width ≤ 24) }
    ensures { step_of result ≡ field_at s.now width at }
{
    let i = at / 8;
    if s.len() < i {
        return None;
    }
    let Field { value, next } = cut_in(window_at(s, i), at % 8, width)?;
    Some(Field {
        value,
        next: 8 * i + next,
    })
}

// What is written of a row of fields: the whole bytes, and the bits that do not fill one yet, at the top of 32. The buffer is lent
// beside it and not held in it: callers hand it on, and a contract says what stands in it before and after.
#[derive(Clone, Copy)]
pub struct Sink {
    pub bytes: usize,
    pub held: u64,
    pub bits: usize,
}

impl Sink {
    // Nothing is written yet.
    pub const EMPTY: Sink = Sink {
        bytes: 0,
        held: 0,
        bits: 0,
    };
}

// The byte at the top of 32 bits.
fn top_byte(held: u64) -> u8
    requires { held < 4294967296 }
    ensures { result ≡ held / 16777216 }
{
    (held / 16777216) as u8
}

// Moves the whole bytes that are held to the buffer.
fn flush(out: &mut [u8], sink: Sink) -> Sink
    requires { Loose out.old sink }
    ensures { Put out.old sink [] out.new result }
{
    let mut bytes = sink.bytes;
    let mut held = sink.held;
    let mut bits = sink.bits;
    // a walk over the bits that are held, and no count of turns
    while 8 <= bits {
        out[bytes] = top_byte(held);
        held = held % 16777216 * 256;
        bytes += 1;
        bits -= 8;
    }
    Sink { bytes, held, bits }
}

// 2^k, worked out and not looked up: where this runs there may be little read-only memory (document 02, L4).
fn power(k: usize) -> u64
    requires { k ≤ 32 }
    ensures { result ≡ 2 ^ k }
{
    1 << k
}

// Writes one field of `width` bits behind what is written.
pub fn put(out: &mut [u8], sink: Sink, value: u64, width: usize) -> Sink
    requires sound { Sound out.old sink }
    requires width_bound { (width ≤ 24) × (value < 2 ^ width) × Room out.old sink width }
    ensures { Put out.old sink (bits_of width value) out.new result }
{
    let bits = sink.bits + width;
    let held = sink.held + value * power(32 - bits);
    flush(out, Sink { held, bits, ..sink })
}

// Fills the last byte with zero bits, and tells how many bytes were written.
pub fn finish(out: &mut [u8], sink: Sink) -> usize
    requires sound { Sound out.old sink }
    requires bits_bound { 8 * sink.bytes + sink.bits ≤ 8 * length out.old }
    ensures { Done out.old sink out.new result }
{
    let at = sink.bytes;
    let held = sink.held;
    if sink.bits == 0 {
        return at;
    }
    out[at] = top_byte(held);
    at + 1
}
