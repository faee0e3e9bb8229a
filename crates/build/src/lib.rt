// What `buildrun` does with its input (document 01, "Cases"): P, the choice count, the choices, and the plan behind them.
#![tactic(auto)]

ghost use Rattle.std.specs.Prelude.{◌≡◌};
ghost use Rattle.plan.specs.Contract.{Some, ◌⇒◌};
ghost use Rattle.build.specs.Build.{ran_with, build_of, built_of, Claimed};
ghost use Rattle.build.specs.Parts.{BuildIn, BuiltFrom};

use plan::reader::read_into;
use plan::refusal::Refusal;
use plan::sheet::Sheet;
use plan_measure::measure_read;
use scheduler::run::run_read;

// The twelve counts that are printed, in their order: of the run's tally and of the plan's measures, in one struct, for document 01's
// cases have them in one.
#[derive(Clone, Copy, PartialEq, Eq)]
pub struct Counts {
    pub rounds: u32,
    pub actions: u32,
    pub longest: u32,
    pub path: u32,
    pub parallel: u32,
    pub rest: u32,
    pub peak: u32,
    pub idle: u32,
    pub requests: u32,
    pub steals: u32,
    pub bare: u32,
    pub idle_victim: u32,
}

// Runs the plan that the arrays hold and measures it. `entering` has how many joins enter each action.
fn build_read(
    workers: u32,
    choices: &[u8],
    plan: &Sheet,
    entering: &[u8; 2048],
) -> Result<Counts, Refusal>
    requires { Some (BuildIn plan.now entering.now) }
    ensures { BuildIn plan.now entering.now ⇒ BuiltFrom plan.now.form workers choices.now result }
{
    let mut schedule = [0u8; 5124];
    let t = run_read(workers, choices, plan, entering, &mut schedule)?;
    let m = measure_read(plan);
    Ok(Counts {
        rounds: t.rounds,
        actions: t.actions,
        longest: m.longest,
        path: m.path,
        parallel: m.parallel,
        rest: m.rest,
        peak: t.peak,
        idle: t.idle,
        requests: t.requests,
        steals: t.steals,
        bare: t.bare,
        idle_victim: t.idle_victim,
    })
}

// Reads the plan, runs it and measures it.
fn build_plan(workers: u32, choices: &[u8], plan: &[u8]) -> Result<Counts, Refusal>
    ensures { built_of result ≡ ran_with plan.now workers choices.now }
{
    let mut sheet = Sheet::blank();
    let mut entering = [0u8; 2048];
    read_into(plan, &mut sheet, &mut entering)?;
    build_read(workers, choices, &sheet, &entering)
}

// The counts of the build that the input asks for, or why it is turned down.
pub fn build(input: &[u8]) -> Result<Counts, Refusal>
    ensures result_value { built_of result ≡ build_of input.now }
    ensures claimed { Claimed input.now result }
{
    if input.len() < 3 {
        return Err(Refusal::RanOut);
    }
    let count = usize::from(u16::from_be_bytes([input[1], input[2]]));
    if 4096 < count {
        return Err(Refusal::Choices);
    }
    let start = 3 + count;
    if input.len() < start {
        return Err(Refusal::RanOut);
    }
    build_plan(u32::from(input[0]), &input[3..start], &input[start..])
}
