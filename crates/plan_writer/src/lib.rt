// Writing plan bytes from a plan that was read, taken over or put together (document 01, "Plan"; document 02, L5).
#![tactic(auto)]

ghost use Rattle.std.specs.Prelude.{◌≡◌, ℕ, ◌^◌, ◌≤◌, ◌<◌, ◌++◌, length, drop};
ghost use Rattle.fields.specs.Field.{bits_of, number};
ghost use Rattle.fields.specs.Sink.{Sound, Room, Put};
ghost use Rattle.plan.specs.Contract.{Some, ◌⇒◌};
ghost use Rattle.plan.specs.Sheet.{RuledIn};
ghost use Rattle.plan_writer.specs.Writer.{number_bits, plan_bits, plan_bytes};
ghost use Rattle.plan_writer.specs.ActionBits.{Writable, fields_of, action_bits};
ghost use Rattle.plan_writer.specs.Given.{WritesInto};
ghost use Rattle.plan_writer.specs.Written.{encoded, answer_of};
ghost use Rattle.plan.specs.Refusal.{accepted};

use fields::field::{Sink, finish, put};
use plan::refusal::Refusal;
use plan::sheet::Sheet;

// How many bits a number plus 1, or 0, takes. These three are asked apart: the length of a plan is worked out before a field is.
fn number_bits(x: usize) -> usize
    ensures { (result ≡ length (number_bits x)) × (result ≤ 9) }
{
    if x == 0 { 1 } else { 9 }
}

// Those bits as one field.
fn number_field(x: usize) -> u64
    requires { x ≤ 256 }
    ensures { result ≡ number (number_bits x) }
{
    if x == 0 { 0 } else { x as u64 + 255 }
}

// What a field in front of those bits is multiplied by.
fn number_scale(x: usize) -> u64
    ensures { result ≡ 2 ^ length (number_bits x) }
{
    if x == 0 { 2 } else { 512 }
}

// How many bits an action takes: its two numbers, and in form 2 four more for its cost.
fn action_bits(form: u32, child: usize, target: usize) -> usize
    ensures { ((cost : ℕ) → result ≡ length (fields_of form child target cost)) × (result ≤ 22) }
{
    let numbers = number_bits(child) + number_bits(target);
    if form == 1 { numbers } else { numbers + 4 }
}

// Those bits as one field.
fn action_field(form: u32, child: usize, target: usize, cost: usize) -> u64
    requires { (child ≤ 256) × (target ≤ 256) × (cost < 16) }
    ensures { result ≡ number (fields_of form child target cost) }
{
    let numbers = number_field(child) * number_scale(target) + number_field(target);
    if form == 1 {
        numbers
    } else {
        16 * numbers + cost as u64
    }
}

// How many bits the plan's fields take in a form.
fn plan_bits(form: u32, plan: &Sheet) -> usize
    requires { Some (RuledIn plan.now) }
    ensures { (result < 65536) × (RuledIn plan.now ⇒ (λ p. result ≡ length (plan_bits form p))) }
{
    let mut bits = 17 + 24 * plan.jobs;
    for k in 0..plan.actions {
        bits += action_bits(form, plan.child_at(k), plan.target_at(k));
    }
    bits
}

// The two numbers and the cost of an action go out as one field: the product and the test of what is held are paid once.
fn put_fields(
    out: &mut [u8],
    sink: Sink,
    form: u32,
    child: usize,
    target: usize,
    cost: usize,
) -> Sink
    requires { Sound out.old sink × (child ≤ 256) × (target ≤ 256) × (cost < 16)
        × Room out.old sink (length (fields_of form child target cost)) }
    ensures { Put out.old sink (fields_of form child target cost) out.new result }
{
    let value = action_field(form, child, target, cost);
    put(out, sink, value, action_bits(form, child, target))
}

// A job's frame and its number of actions, as one field.
fn put_header(out: &mut [u8], sink: Sink, frame: u32, size: usize) -> Sink
    requires { Sound out.old sink × (frame < 65536) × (size < 256) × Room out.old sink 24 }
    ensures { Put out.old sink (bits_of 16 frame ++ bits_of 8 size) out.new result }
{
    put(out, sink, 256 * u64::from(frame) + size as u64, 24)
}

// Two calls, for each lays down more or less: of a sink that is either, the proof would have to tell both stories at one call.
fn put_action(out: &mut [u8], sink: Sink, form: u32, k: usize, plan: &Sheet) -> Sink
    requires { Sound out.old sink × Writable plan.now k × Room out.old sink (length (action_bits form plan.now k)) }
    ensures { Put out.old sink (action_bits form plan.now k) out.new result }
{
    let j = plan.job_at(k);
    let start = plan.first_of(j);
    if start == k {
        let s = put_header(out, sink, plan.frame_of(j), plan.first_of(j + 1) - start);
        return put_fields(
            out,
            s,
            form,
            plan.child_at(k),
            plan.target_at(k),
            plan.cost_at(k),
        );
    }
    put_fields(
        out,
        sink,
        form,
        plan.child_at(k),
        plan.target_at(k),
        plan.cost_at(k),
    )
}

// Writes the plan's bytes in a form, and tells how many they are.
fn write_plan(out: &mut [u8], form: u32, plan: &Sheet) -> usize
    requires { Some (WritesInto (length out.old) form plan.now) }
    ensures { RuledIn plan.now
        ⇒ (λ p. (result ≡ length (plan_bytes form p)) × (out.new ≡ plan_bytes form p ++ drop (length (plan_bytes form p)) out.old)) }
{
    let mut sink = put(out, Sink::EMPTY, u64::from(form), 8);
    sink = put(out, sink, plan.jobs as u64, 9);
    for k in 0..plan.actions {
        sink = put_action(out, sink, form, k, plan);
    }
    finish(out, sink)
}

// Writes the bytes, in a form, of the plan that the arrays have, where there is room, and tells their number, or why nothing was
// written. It looks at no parent, so none need be noted.
pub fn encode(form: u32, plan: &Sheet, bytes: &mut [u8]) -> Result<usize, Refusal>
    requires { Some (RuledIn plan.now) × (form < 256) }
    ensures { RuledIn plan.now
        ⇒ (λ p. record { answer = answer_of result; buffer = bytes.new } ≡ encoded form (accepted p) bytes.old) }
{
    if bytes.len() < (plan_bits(form, plan) + 7) / 8 {
        return Err(Refusal::Short);
    }
    Ok(write_plan(bytes, form, plan))
}
