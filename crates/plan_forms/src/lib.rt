// Plan bytes turned into the other form (document 02, L6).
#![tactic(auto)]

ghost use Rattle.std.specs.Prelude.{◌≡◌};
ghost use Rattle.plan.specs.Contract.{Some, ◌⇒◌};
ghost use Rattle.plan.specs.Rules.{costs_fit};
ghost use Rattle.plan.specs.Sheet.{Blank, PlanIn};
ghost use Rattle.plan_writer.specs.Written.{answer_of};
ghost use Rattle.plan_forms.specs.Forms.{to_form2, to_form1, Converted};
ghost use Rattle.plan_forms.specs.Given.{ReadAs};

use fields::field::{Field, cut};
use plan::reader::read_into;
use plan::refusal::Refusal;
use plan::sheet::Sheet;
use plan_writer::encode;

// Reads the plan that the bytes hold into its arrays, where they are of the form that is expected.
fn read_as(form: u32, s: &[u8], plan: &mut Sheet) -> Result<(), Refusal>
    requires { Blank plan.old }
    ensures { ReadAs form s.now result plan.new }
{
    let Some(Field { value, .. }) = cut(s, 0, 8) else {
        return Err(Refusal::RanOut);
    };
    if value != form {
        return Err(Refusal::Form);
    }
    let mut entering = [0u8; 2048];
    read_into(s, plan, &mut entering)
}

// Whether every action costs 1: a loop, as in `plan`'s rules.
fn costs_one(plan: &Sheet) -> bool
    requires { Some (PlanIn plan.now) }
    ensures { PlanIn plan.now ⇒ (λ p. result ≡ costs_fit 1 p) }
{
    for k in 0..plan.actions {
        if plan.cost_at(k) != 1 {
            return false;
        }
    }
    true
}

// C calls this and the one below; they differ in the test of costs.
// Writes, in form 2, the plan that bytes of form 1 hold, and tells the number of bytes.
pub fn to_form_2(plan: &[u8], bytes: &mut [u8]) -> Result<usize, Refusal>
    ensures bytes_after { record { answer = answer_of result; buffer = bytes.new } ≡ to_form2 plan.now bytes.old }
    ensures converted { Converted 1 2 plan.now result bytes.new }
{
    let mut sheet = Sheet::blank();
    read_as(1, plan, &mut sheet)?;
    encode(2, &sheet, bytes)
}

// Writes, in form 1, the plan that bytes of form 2 hold, where all its costs are 1, and tells the number of bytes.
pub fn to_form_1(plan: &[u8], bytes: &mut [u8]) -> Result<usize, Refusal>
    ensures bytes_after { record { answer = answer_of result; buffer = bytes.new } ≡ to_form1 plan.now bytes.old }
    ensures converted { Converted 2 1 plan.now result bytes.new }
{
    let mut sheet = Sheet::blank();
    read_as(2, plan, &mut sheet)?;
    if !costs_one(&sheet) {
        return Err(Refusal::Cost);
    }
    encode(1, &sheet, bytes)
}
