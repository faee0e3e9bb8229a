// The library for C and Rust (include/dorewhanga.h). Each function hands its input on to the entry of its name and gives the
// answer as plain numbers: the refusal's number first, 0 for none, then what was asked for, or 0s.
#![tactic(auto)]

ghost use Rattle.std.specs.Prelude.{◌≡◌};
ghost use Rattle.plan.specs.Refusal.{number_of};
ghost use Rattle.plan_measure.specs.Measure.{measures, told};
ghost use Rattle.plan_writer.specs.Written.{answer_of};
ghost use Rattle.plan_table.specs.Table.{to_table, to_plan};
ghost use Rattle.courses.specs.Schedule.{checked};
ghost use Rattle.scheduler.specs.Entry.{run_into, ran_of};
ghost use Rattle.pool_runner.specs.Entry.{pool_into};
ghost use Rattle.plan_forms.specs.Forms.{to_form2, to_form1};
ghost use Rattle.plan_pair.specs.Pair.{pair_into};
ghost use Rattle.cabi.specs.Plain.{count_of, measures_of, tally_of, check_of, Converted, Paired, Divided, Claimed, PoolClaimed};
ghost use Rattle.cabi.specs.Few.{Few};

use checker::check;
use plan::refusal::Refusal;
use plan_forms::{to_form_1, to_form_2};
use plan_measure::{Measures, measure};
use plan_pair::pair;
use plan_table::{plan_to_table, table_to_plan};
use pool_runner::entry::pool;
use runs::tally::Tally;
use scheduler::run::run;

// The structs are C's, each with the refusal in front (include/dorewhanga.h), so that they repeat the library's fields.
#[repr(C)]
#[derive(Clone, Copy)]
pub struct DwCount {
    pub refused: u32,
    pub count: u32,
}

#[repr(C)]
#[derive(Clone, Copy, Default)]
pub struct DwMeasures {
    pub refused: u32,
    pub total: u32,
    pub work: u32,
    pub longest: u32,
    pub path: u32,
    pub parallel: u32,
    pub rest: u32,
}

#[repr(C)]
#[derive(Clone, Copy, Default)]
pub struct DwTally {
    pub refused: u32,
    pub rounds: u32,
    pub actions: u32,
    pub idle: u32,
    pub requests: u32,
    pub steals: u32,
    pub bare: u32,
    pub idle_victim: u32,
    pub peak: u32,
}

fn cause_number(cause: Refusal) -> u32
    ensures { result ≡ number_of cause }
{
    u32::from(u8::from(cause))
}

// What an entry that writes answers: the number of its refusal, or of what it wrote. It is no `From`, which could not ask that the
// number fits.
fn counted(a: Result<usize, Refusal>) -> DwCount
    requires { Few a }
    ensures { result ≡ count_of (answer_of a) }
{
    match a {
        Err(cause) => DwCount {
            refused: cause_number(cause),
            count: 0,
        },
        Ok(n) => DwCount {
            refused: 0,
            count: n as u32,
        },
    }
}

// What an entry that measures answers: the number of its refusal, or the measures.
impl From<Result<Measures, Refusal>> for DwMeasures {
    ghost from_gives = { λ r d. d ≡ measures_of (told r) };

    fn from(r: Result<Measures, Refusal>) -> DwMeasures {
        match r {
            Err(cause) => DwMeasures {
                refused: cause_number(cause),
                ..DwMeasures::default()
            },
            Ok(m) => DwMeasures {
                refused: 0,
                total: m.total,
                work: m.work,
                longest: m.longest,
                path: m.path,
                parallel: m.parallel,
                rest: m.rest,
            },
        }
    }
}

// What an entry that runs answers: the number of its refusal, or the tally.
impl From<Result<Tally, Refusal>> for DwTally {
    ghost from_gives = { λ r d. d ≡ tally_of (ran_of r) };

    fn from(r: Result<Tally, Refusal>) -> DwTally {
        match r {
            Err(cause) => DwTally {
                refused: cause_number(cause),
                ..DwTally::default()
            },
            Ok(t) => DwTally {
                refused: 0,
                rounds: t.rounds,
                actions: t.actions,
                idle: t.idle,
                requests: t.requests,
                steals: t.steals,
                bare: t.bare,
                idle_victim: t.idle_victim,
                peak: t.peak,
            },
        }
    }
}

#[unsafe(no_mangle)]
pub extern "C" fn dw_plan_to_table(plan: &[u8], rows: &mut [u16]) -> DwCount
    ensures { (result ≡ count_of (to_table plan.now rows.old).answer)
        × (rows.new ≡ (to_table plan.now rows.old).buffer) }
{
    counted(plan_to_table(plan, rows))
}

#[unsafe(no_mangle)]
pub extern "C" fn dw_table_to_plan(form: u32, rows: &[u16], plan: &mut [u8]) -> DwCount
    ensures { (result ≡ count_of (to_plan form rows.now plan.old).answer)
        × (plan.new ≡ (to_plan form rows.now plan.old).buffer) }
{
    counted(table_to_plan(form, rows, plan))
}

#[unsafe(no_mangle)]
pub extern "C" fn dw_to_form_2(plan: &[u8], bytes: &mut [u8]) -> DwCount
    ensures value { (result ≡ count_of (to_form2 plan.now bytes.old).answer)
        × (bytes.new ≡ (to_form2 plan.now bytes.old).buffer) }
    ensures converted { Converted 1 2 plan.now result bytes.new }
{
    counted(to_form_2(plan, bytes))
}

#[unsafe(no_mangle)]
pub extern "C" fn dw_to_form_1(plan: &[u8], bytes: &mut [u8]) -> DwCount
    ensures value { (result ≡ count_of (to_form1 plan.now bytes.old).answer)
        × (bytes.new ≡ (to_form1 plan.now bytes.old).buffer) }
    ensures converted { Converted 2 1 plan.now result bytes.new }
{
    counted(to_form_1(plan, bytes))
}

#[unsafe(no_mangle)]
pub extern "C" fn dw_pair(first: &[u8], second: &[u8], frame: u32, plan: &mut [u8]) -> DwCount
    ensures value { (result ≡ count_of (pair_into frame first.now second.now plan.old).answer)
        × (plan.new ≡ (pair_into frame first.now second.now plan.old).buffer) }
    ensures paired { Paired frame first.now second.now result plan.new }
{
    counted(pair(first, second, frame, plan))
}

#[unsafe(no_mangle)]
pub extern "C" fn dw_measure(plan: &[u8]) -> DwMeasures
    ensures value { result ≡ measures_of (measures plan.now) }
    ensures divided { Divided result }
{
    measure(plan).into()
}

#[unsafe(no_mangle)]
pub extern "C" fn dw_run(plan: &[u8], workers: u32, choices: &[u8], schedule: &mut [u8]) -> DwTally
    ensures value { (result ≡ tally_of (run_into plan.now workers choices.now schedule.old).answer)
        × (schedule.new ≡ (run_into plan.now workers choices.now schedule.old).schedule) }
    ensures claimed { Claimed plan.now workers choices.now result schedule.new }
{
    run(plan, workers, choices, schedule).into()
}

#[unsafe(no_mangle)]
pub extern "C" fn dw_pool(plan: &[u8], workers: u32, schedule: &mut [u8]) -> DwTally
    ensures value { (result ≡ tally_of (pool_into plan.now workers schedule.old).answer)
        × (schedule.new ≡ (pool_into plan.now workers schedule.old).schedule) }
    ensures pool_claimed { PoolClaimed plan.now workers result schedule.new }
{
    pool(plan, workers, schedule).into()
}

#[unsafe(no_mangle)]
pub extern "C" fn dw_check(plan: &[u8], schedule: &[u8]) -> u32
    ensures { result ≡ check_of (checked plan.now schedule.now) }
{
    match check(plan, schedule) {
        Err(cause) => cause_number(cause),
        Ok(()) => 0,
    }
}
