// Reading plan bytes into a plan's arrays (document 01, "Plan" and "Turned down"; document 02, L5).
ghost use Rattle.std.specs.Prelude.{◌≡◌, ◌+◌, ◌*◌, ◌^◌, ◌≤◌, ◌<◌, length};
ghost use Rattle.plan.specs.Reader.{is_form, jobs_at, plan_at, fills};
ghost use Rattle.plan.specs.Entering.{Unentered};
ghost use Rattle.plan.specs.Sheet.{Blank};
ghost use Rattle.plan.specs.Progress.{ActionsRead, HeaderRead, JobRead, formed, PlanRead};
ghost use Rattle.plan.specs.Found.{ReadInto};

use crate::action::read_action;
use crate::refusal::Refusal;
use crate::rules::{join_rules, spawn_rules};
use crate::sheet::Sheet;
use fields::field::cut;

// A count of actions, and where reading goes on: of a job, where its actions begin, and of all jobs so far, where the last one ends.
#[derive(Clone, Copy)]
struct Header {
    size: usize,
    next: usize,
}

// Reads `count` actions of job j into the places from `from` on.
fn read_actions(
    s: &[u8],
    at: usize,
    form: u32,
    j: usize,
    from: usize,
    count: usize,
    plan: &mut Sheet,
) -> Result<usize, Refusal>
    requires { (at + 22 * count < 2 ^ 17) × (j < 256) × (from + count ≤ 2048) }
    ensures { ActionsRead form s.now at j from count plan.old plan.new result }
{
    let mut place = at;
    for k in from..from + count {
        place = read_action(s, place, form, j, k, plan)?;
    }
    Ok(place)
}

// Reads a job's frame and action count, where `earlier` actions came before it.
fn read_header(
    s: &[u8],
    at: usize,
    j: usize,
    earlier: usize,
    plan: &mut Sheet,
) -> Result<Header, Refusal>
    requires { (at < 2 ^ 16) × (j < 256) × (earlier ≤ 2048) }
    ensures { HeaderRead s.now at j earlier plan.old plan.new result }
{
    let Some(weight) = cut(s, at, 16) else {
        return Err(Refusal::RanOut);
    };
    if weight.value == 0 {
        return Err(Refusal::Range);
    }
    let Some(count) = cut(s, weight.next, 8) else {
        return Err(Refusal::RanOut);
    };
    let size = count.value as usize;
    if size == 0 {
        return Err(Refusal::Range);
    }
    if 2048 < earlier + size {
        return Err(Refusal::Range);
    }
    plan.set_frame(j, weight.value as u16);
    Ok(Header {
        size,
        next: count.next,
    })
}

// Reads job j, and tells how many actions there are up to its end.
fn read_job(
    s: &[u8],
    at: usize,
    form: u32,
    j: usize,
    earlier: usize,
    plan: &mut Sheet,
) -> Result<Header, Refusal>
    requires { (at < 2 ^ 16) × (j < 256) × (earlier ≤ 2048) }
    ensures { JobRead form s.now at j earlier plan.old plan.new result }
{
    let header = read_header(s, at, j, earlier, plan)?;
    let next = read_actions(s, header.next, form, j, earlier, header.size, plan)?;
    let size = earlier + header.size;
    plan.set_first(j + 1, size);
    Ok(Header { size, next })
}

// Reads all jobs, and tells where the fill bits begin.
fn read_jobs(
    s: &[u8],
    at: usize,
    form: u32,
    jobs: usize,
    plan: &mut Sheet,
) -> Result<usize, Refusal>
    requires { (at ≤ 17) × (jobs ≤ 256) }
    ensures { PlanRead (formed form (jobs_at form s.now jobs 0 at)) plan.old plan.new result }
{
    let mut actions = 0;
    let mut next = at;
    for j in 0..jobs {
        let job = read_job(s, next, form, j, actions, plan)?;
        actions = job.size;
        next = job.next;
    }
    plan.set_counts(form, jobs, actions);
    Ok(next)
}

// The form of a plan is one that is read.
pub fn is_form(form: u32) -> bool
    ensures { result ≡ is_form form }
{
    form == 1 || form == 2
}

// Reads the form and the job count, and then the jobs.
fn read_body(s: &[u8], plan: &mut Sheet) -> Result<usize, Refusal>
    ensures { PlanRead (plan_at s.now) plan.old plan.new result }
{
    let Some(form) = cut(s, 0, 8) else {
        return Err(Refusal::RanOut);
    };
    if !is_form(form.value) {
        return Err(Refusal::Form);
    }
    let Some(count) = cut(s, form.next, 9) else {
        return Err(Refusal::RanOut);
    };
    let jobs = count.value as usize;
    if jobs == 0 {
        return Err(Refusal::Range);
    }
    if 256 < jobs {
        return Err(Refusal::Range);
    }
    read_jobs(s, count.next, form.value, jobs, plan)
}

// Zero bits fill the last byte, and nothing follows.
pub fn filled(s: &[u8], at: usize) -> bool
    requires { (at < 2 ^ 16) × (at ≤ 8 * length s.now) }
    ensures { result ≡ fills s.now at }
{
    let fill = (8 - at % 8) % 8;
    let Some(zeros) = cut(s, at, fill) else {
        return false;
    };
    zeros.value == 0 && zeros.next / 8 == s.len()
}

// Reads the plan that the bytes hold into its arrays, or tells why the bytes are turned down: 1, 2 and 3 as the fields are read,
// then 6, 4, 5. `entering` then has how many joins enter each action. Both are the caller's own, lent, in three lines that stand at each
// entry: runs alone go on to use `entering`.
pub fn read_into(s: &[u8], plan: &mut Sheet, entering: &mut [u8; 2048]) -> Result<(), Refusal>
    requires { Blank plan.old × Unentered entering.old }
    ensures { ReadInto s.now result plan.new entering.new }
{
    let end = read_body(s, plan)?;
    if !filled(s, end) {
        return Err(Refusal::Fill);
    }
    if !spawn_rules(plan) {
        return Err(Refusal::Spawn);
    }
    if !join_rules(plan, entering) {
        return Err(Refusal::Join);
    }
    Ok(())
}
