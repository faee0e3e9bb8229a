// Reading one action of a plan (document 01, "Plan"; document 02, L5): it lies in one window of bytes, and its two numbers are read
// without a branch on their bits.
ghost use Rattle.std.specs.Prelude.{◌≡◌, ◌^◌, ◌≤◌, ◌<◌};
ghost use Rattle.fields.specs.Field.{step_of};
ghost use Rattle.fields.specs.FieldParts.{Windowed};
ghost use Rattle.plan.specs.Reader.{number_at};
ghost use Rattle.plan.specs.Contract.{◌⇒◌};
ghost use Rattle.plan.specs.Action.{cost_field, ActionRead};

use crate::refusal::Refusal;
use crate::sheet::Sheet;
use fields::field::{Field, Window, cut_in, window_at};

// A bit, and if it is 1 a number of 8 bits: the number plus 1, or 0. No branch hangs on the bit, which is hard to foresee.
fn number_in(w: Window, at: usize) -> Option<Field>
    requires { at ≤ 23 }
    ensures { Windowed w ⇒ (λ t. step_of result ≡ number_at t at) }
{
    let from = (w.bits << at) % 4294967296;
    let there = from >> 31;
    let next = at + 1 + 8 * (there as usize);
    if w.held < next {
        return None;
    }
    let value = ((from >> 23) % 256 + 1) * there;
    Some(Field {
        value: value as u32,
        next,
    })
}

// The cost of an action as it is written: four bits, or in form 1 none, for 1.
fn cost_in(form: u32, w: Window, at: usize) -> Option<Field>
    requires { at ≤ 28 }
    ensures { Windowed w ⇒ (λ t. step_of result ≡ cost_field form t at) }
{
    if form == 1 {
        return Some(Field { value: 1, next: at });
    }
    cut_in(w, at, 4)
}

// Reads the action at place `at`, as one of job j, into place k, and tells where reading goes on.
pub fn read_action(
    s: &[u8],
    at: usize,
    form: u32,
    j: usize,
    k: usize,
    plan: &mut Sheet,
) -> Result<usize, Refusal>
    requires { (at < 2 ^ 17) × (j < 256) × (k < 2048) }
    ensures { ActionRead form s.now at j k plan.old plan.new result }
{
    let i = at / 8;
    let w = window_at(s, i);
    let Some(child) = number_in(w, at % 8) else {
        return Err(Refusal::RanOut);
    };
    let Some(target) = number_in(w, child.next) else {
        return Err(Refusal::RanOut);
    };
    let Some(cost) = cost_in(form, w, target.next) else {
        return Err(Refusal::RanOut);
    };
    if cost.value == 0 {
        return Err(Refusal::Range);
    }
    plan.set_action(
        k,
        j,
        child.value as u16,
        target.value as u16,
        cost.value as u16,
    );
    Ok(8 * i + cost.next)
}
