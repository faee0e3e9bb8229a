// Two plans under a new root, to be built together (document 02, L9). The result is laid out in the arrays of one plan: the first
// plan as soon as that is read, then the second, then the new root. That it keeps all rules is proved and not tested.
#![tactic(auto)]

ghost use Rattle.std.specs.Prelude.{◌≡◌, ◌+◌, ◌≤◌, ◌<◌, length, take};
ghost use Rattle.plan.specs.Contract.{Some, ◌⇒◌};
ghost use Rattle.plan.specs.Plan.{job, total};
ghost use Rattle.plan.specs.Progress.{with_job, with_jobs};
ghost use Rattle.plan.specs.Sheet.{child_at, cost_at, with_action};
ghost use Rattle.plan_writer.specs.Written.{answer_of};
ghost use Rattle.plan_pair.specs.Pair.{raised_child, under, new_root, in_limits, pair_form, pair_into, Paired};
ghost use Rattle.plan_pair.specs.Given.{target_under, Lays, ActionAt, LaysJob, LaidBelow, Taken};

use plan::reader::read_into;
use plan::refusal::Refusal;
use plan::sheet::Sheet;
use plan_writer::encode;

// A child's number plus 1, or 0 for none, where numbers rise by d.
fn raised_child(d: usize, child: usize) -> usize
    requires { (d ≤ 256) × (child ≤ 256) }
    ensures { (result ≡ raised_child d child) × (result ≤ 512) }
{
    if child == 0 { 0 } else { child + d }
}

// Where an action sends its join, plus 1, once its plan stands below the new root.
fn target_under(plan: &Sheet, k: usize) -> usize
    requires { k < 2048 }
    ensures { (result ≡ target_under plan.now k) × (result < 65536) }
{
    if k + 1 == plan.first_of(1) {
        return 5;
    }
    plan.target_at(k)
}

// Lays the action at place k of a plan at place `at`, as one of job `owner`; its child's number rises by d.
fn lay_action(plan: &Sheet, k: usize, d: usize, at: usize, owner: usize, sheet: &mut Sheet)
    requires { ActionAt plan.now k d at owner }
    ensures { sheet.new ≡ with_action sheet.old at owner
        (raised_child d (child_at plan.now k)) (target_under plan.now k) (cost_at plan.now k) }
{
    let child = raised_child(d, plan.child_at(k));
    let target = target_under(plan, k);
    let cost = plan.cost_at(k);
    sheet.set_action(at, owner, child as u16, target as u16, cost as u16);
}

// Lays job j of a plan as job d + j, its actions as many places later as `from` says.
fn lay_job(plan: &Sheet, j: usize, d: usize, from: usize, sheet: &mut Sheet)
    requires { Some (LaysJob d from j plan.now) }
    ensures { LaysJob d from j plan.now
        ⇒ (λ p. sheet.new ≡ with_job sheet.old (from + total (take j p)) (d + j) (job (under d p) j)) }
{
    let end = plan.first_of(j + 1);
    sheet.set_frame(d + j, plan.frame_of(j) as u16);
    for k in plan.first_of(j)..end {
        lay_action(plan, k, d, from + k, d + j, sheet);
    }
    sheet.set_first(d + j + 1, from + end);
}

// Lays all jobs of a plan, the first as job d, and their actions from place `from` on.
fn lay_jobs(plan: &Sheet, d: usize, from: usize, sheet: &mut Sheet)
    requires { Some (Lays d from plan.now) }
    ensures { Lays d from plan.now ⇒ (λ p. sheet.new ≡ with_jobs sheet.old from d (under d p)) }
{
    for j in 0..plan.jobs {
        lay_job(plan, j, d, from, sheet);
    }
}

// Lays the new root, where the first plan has so many jobs: a line for each of its five actions.
fn lay_root(frame: u16, jobs: usize, sheet: &mut Sheet)
    requires { jobs ≤ 256 }
    ensures { sheet.new ≡ with_job sheet.old 0 0 (new_root frame jobs) }
{
    sheet.set_frame(0, frame);
    sheet.set_action(0, 0, 2, 0, 1);
    sheet.set_action(1, 0, 0, 0, 1);
    sheet.set_action(2, 0, (jobs + 2) as u16, 0, 1);
    sheet.set_action(3, 0, 0, 0, 1);
    sheet.set_action(4, 0, 0, 0, 1);
    sheet.set_first(1, 5);
}

// A root's frame and the counts of a plan are within their limits.
#[tactic(auto, unfolding(crate::specs::Pair::in_limits))]
fn within(frame: u32, jobs: usize, actions: usize) -> bool
    ensures { result ≡ in_limits frame jobs actions }
{
    1 <= frame && frame <= 65535 && jobs <= 256 && actions <= 2048
}

// The form and the counts of a plan that was laid; the plan itself, of 20 KB, is not handed on.
#[derive(Clone, Copy)]
struct Laid {
    form: u32,
    jobs: usize,
    actions: usize,
}

// Reads a plan, and lays it from job d and place `from` on, where that is within the limits.
fn lay(s: &[u8], frame: u32, d: usize, from: usize, sheet: &mut Sheet) -> Result<Laid, Refusal>
    requires { (d ≤ 257) × (from ≤ 2053) }
    ensures { Taken s.now result (LaidBelow frame d from sheet.old sheet.new) }
{
    let mut plan = Sheet::blank();
    let mut entering = [0u8; 2048];
    read_into(s, &mut plan, &mut entering)?;
    if within(frame, d + plan.jobs, from + plan.actions) {
        lay_jobs(&plan, d, from, sheet);
    }
    Ok(Laid {
        form: plan.form,
        jobs: plan.jobs,
        actions: plan.actions,
    })
}

// The form of the result of two plans of these forms.
#[tactic(auto, unfolding(crate::specs::Pair::pair_form))]
fn form_of(first: u32, second: u32) -> u32
    ensures { (result ≡ pair_form first second) × (result < 256) }
{
    if first == 1 && second == 1 { 1 } else { 2 }
}

// Writes the plan of a new root with that frame, below which stand the plans that both bytes hold, and tells the number of bytes.
pub fn pair(first: &[u8], second: &[u8], frame: u32, bytes: &mut [u8]) -> Result<usize, Refusal>
    ensures bytes_after { record { answer = answer_of result; buffer = bytes.new }
        ≡ pair_into frame first.now second.now bytes.old }
    ensures paired { Paired frame first.now second.now result bytes.new }
{
    let mut sheet = Sheet::blank();
    let one = lay(first, frame, 1, 5, &mut sheet)?;
    let two = lay(second, frame, 1 + one.jobs, 5 + one.actions, &mut sheet)?;
    let jobs = 1 + one.jobs + two.jobs;
    let actions = 5 + one.actions + two.actions;
    if !within(frame, jobs, actions) {
        return Err(Refusal::Pair);
    }
    lay_root(frame as u16, one.jobs, &mut sheet);
    sheet.set_counts(form_of(one.form, two.form), jobs, actions);
    encode(sheet.form, &sheet, bytes)
}
