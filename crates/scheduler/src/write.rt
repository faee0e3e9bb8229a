// A schedule's bytes: the header, and the rows behind it.
ghost use Rattle.std.specs.Prelude.{◌≡◌, ◌++◌, ◌+◌, ◌*◌, ◌≤◌, ◌<◌, length, drop};
ghost use Rattle.courses.specs.Schedule.{round_bits, schedule_length};
ghost use Rattle.scheduler.specs.Written.{header_bytes, rows_length, Words, RowsWritten, ScheduleWritten};

use fields::field::{Sink, finish, put};
use turns::rows::Rows;

// The schedule's first four bytes.
fn write_header(schedule: &mut [u8], form: u32, n: usize, actions: usize)
    requires { (form < 256) × (n ≤ 16) × (actions ≤ 2048) × (4 ≤ length schedule.old) }
    ensures { schedule.new ≡ header_bytes form n actions ++ drop 4 schedule.old }
{
    schedule[0] = form as u8;
    schedule[1] = (n * 8 + actions / 512) as u8;
    schedule[2] = (actions / 2 % 256) as u8;
    schedule[3] = (actions % 2 * 128) as u8;
}

// Writes the rows of a schedule of form 1, two bytes each: 12 bits of round and 4 of worker. Whole bytes go out as they are, and need no
// sink.
fn write_narrow(out: &mut [u8], actions: usize, rows: &Rows)
    requires { (actions ≤ 2048) × (2 * actions ≤ length out.old) × Words 16 actions rows.now }
    ensures { RowsWritten 16 actions rows.now out.old out.new }
{
    for k in 0..actions {
        let [high, low] = (rows[k] as u16).to_be_bytes();
        out[2 * k] = high;
        out[2 * k + 1] = low;
    }
}

// Writes the rows of a schedule of form 2, 20 bits each: 16 of round and 4 of worker.
fn write_wide(out: &mut [u8], actions: usize, rows: &Rows)
    requires { (actions ≤ 2048) × (rows_length 20 actions ≤ length out.old) × Words 20 actions rows.now }
    ensures { RowsWritten 20 actions rows.now out.old out.new }
{
    let mut sink = Sink::EMPTY;
    for k in 0..actions {
        sink = put(out, sink, u64::from(rows[k]), 20);
    }
    finish(out, sink);
}

// Writes the rows behind the schedule's header, which it never sees.
fn write_rows(out: &mut [u8], form: u32, actions: usize, rows: &Rows)
    requires { (actions ≤ 2048) × (rows_length (round_bits form + 4) actions ≤ length out.old)
        × Words (round_bits form + 4) actions rows.now }
    ensures { RowsWritten (round_bits form + 4) actions rows.now out.old out.new }
{
    if form == 1 {
        write_narrow(out, actions, rows);
        return;
    }
    write_wide(out, actions, rows);
}

// Writes the schedule of n workers, whatever kind of run made its rows.
pub fn write_schedule(schedule: &mut [u8], form: u32, n: usize, actions: usize, rows: &Rows)
    requires { (form < 256) × (n ≤ 16) × (actions ≤ 2048) × (schedule_length form actions ≤ length schedule.old)
        × Words (round_bits form + 4) actions rows.now }
    ensures { ScheduleWritten form n actions rows.now schedule.old schedule.new }
{
    write_header(schedule, form, n, actions);
    write_rows(&mut schedule[4..], form, actions, rows);
}
