// The form of a schedule's bytes (document 01, "Schedule"; document 02, L5): "Form 8 bits .., workers 5, actions 12, 7 zero bits;
// then per action, in plan order, round 12 bits .. and worker 4"; in form 2 a round has 16 bits, and zero bits fill the last byte.
ghost use Rattle.std.specs.Prelude.{◌≡◌, ◌+◌, ◌*◌, ◌≤◌, ◌<◌, length};
ghost use Rattle.courses.specs.Schedule.{round_bits};
ghost use Rattle.checker.specs.Rows.{pair, word};
ghost use Rattle.checker.specs.Formed.{Formed, Headed, WordsTold};

use crate::rows::Rows;
use fields::field::cut;
use plan::reader::filled;

// The worker count of a header of a form for so many actions, where the header is well formed: a worker count of 0 is not. Each field
// is opened by `let .. else`, the form that document 01 names.
fn header(form: u32, schedule: &[u8], actions: usize) -> Option<usize>
    ensures { Headed form schedule.now actions result }
{
    let Some(written) = cut(schedule, 0, 8) else {
        return None;
    };
    let Some(workers) = cut(schedule, written.next, 5) else {
        return None;
    };
    let Some(number) = cut(schedule, workers.next, 12) else {
        return None;
    };
    let Some(zeros) = cut(schedule, number.next, 7) else {
        return None;
    };
    let count = number.value as usize;
    if written.value != form {
        return None;
    }
    if workers.value == 0 {
        return None;
    }
    if 16 < workers.value {
        return None;
    }
    if count != actions {
        return None;
    }
    if zeros.value != 0 {
        return None;
    }
    Some(workers.value as usize)
}

// How many bits a row has: its round and, in the last four, its worker. A number for each form, as `more_of` is: one function for
// both would be told which.
fn row_width(form: u32) -> usize
    ensures { (result ≡ round_bits form + 4) × (result ≤ 20) }
{
    if form == 1 { 16 } else { 20 }
}

// The two bytes of row k, where each row has two.
fn bytes_at(schedule: &[u8], k: usize) -> u32
    requires { 5 + 2 * k < length schedule.now }
    ensures { (result ≡ pair schedule.now k) × (result < 65536) }
{
    u32::from(u16::from_be_bytes([schedule[4 + 2 * k], schedule[5 + 2 * k]]))
}

// The bits of row k, which are there, as one number.
fn row_at(width: usize, schedule: &[u8], k: usize) -> u32
    requires { (width ≤ 20) × (k ≤ 2048) × (32 + width * k + width ≤ 8 * length schedule.now) }
    ensures { result ≡ word width schedule.now k }
{
    // rows of two bytes are read as they lie, and need no window
    if width == 16 {
        return bytes_at(schedule, k);
    }
    let Some(field) = cut(schedule, 32 + width * k, width) else {
        unreachable!();
    };
    field.value
}

// Reads the rows, unless one has a round of 0: a truth value, for the caller has one refusal.
fn read_rows(width: usize, schedule: &[u8], actions: usize, rows: &mut Rows) -> bool
    requires { (width ≤ 20) × (actions ≤ 2048) × (32 + width * actions ≤ 8 * length schedule.now) × (length rows.old ≡ 2048) }
    ensures { WordsTold width schedule.now actions rows.new result }
{
    for k in 0..actions {
        let row = row_at(width, schedule, k);
        if row < 16 {
            return false;
        }
        rows[k] = row;
    }
    true
}

// Reads the schedule's rows and tells its worker count, where it is well formed for a plan of that form with so many actions.
pub fn read_schedule(form: u32, schedule: &[u8], actions: usize, rows: &mut Rows) -> Option<usize>
    requires { (actions ≤ 2048) × (length rows.old ≡ 2048) }
    ensures { Formed form schedule.now actions result rows.new }
{
    let width = row_width(form);
    if schedule.len() != 4 + (width * actions + 7) / 8 {
        return None;
    }
    let workers = header(form, schedule, actions)?;
    if !read_rows(width, schedule, actions, rows) {
        return None;
    }
    if !filled(schedule, 32 + width * actions) {
        return None;
    }
    Some(workers)
}
