// The two calls that turn plan bytes into the other form undo one another (document 02, L6). Each way round is a theorem with a definition
// of its own (`old_back`, `new_back`), so that they are not one function over the two calls.
ghost use Rattle.std.specs.Prelude.{◌≡◌};
ghost use Rattle.plan_writer.specs.Written.{answer_of};
ghost use Rattle.plan_forms.specs.Forms.{to_form2, to_form1};
ghost use Rattle.own.specs.Forms.{old_back, new_back};

use plan::refusal::Refusal;
use plan_forms::{to_form_1, to_form_2};

// Turns a plan of form 1 into form 2 and back: what comes back is the plan's bytes.
pub fn old_back(plan: &[u8], bytes: &mut [u8], out: &mut [u8]) -> Result<usize, Refusal>
    ensures out_after { record { answer = answer_of result; buffer = out.new }
        ≡ old_back plan.now bytes.old out.old }
    ensures bytes_after { bytes.new ≡ (to_form2 plan.now bytes.old).buffer }
{
    let n = to_form_2(plan, bytes)?;
    to_form_1(&bytes[0..n], out)
}

// Turns a plan of form 2 into form 1 and back: what comes back is the plan's bytes.
pub fn new_back(plan: &[u8], bytes: &mut [u8], out: &mut [u8]) -> Result<usize, Refusal>
    ensures out_after { record { answer = answer_of result; buffer = out.new }
        ≡ new_back plan.now bytes.old out.old }
    ensures bytes_after { bytes.new ≡ (to_form1 plan.now bytes.old).buffer }
{
    let n = to_form_1(plan, bytes)?;
    to_form_2(&bytes[0..n], out)
}
