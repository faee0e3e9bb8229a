// The open table (document 01, "Plan"; document 02, L5): a plan's bytes into a table, and a table into a plan's bytes.
#![tactic(auto)]

ghost use Rattle.std.specs.Prelude.{◌≡◌};
ghost use Rattle.plan.specs.Contract.{Some, ◌⇒◌};
ghost use Rattle.plan_writer.specs.Written.{encoded, answer_of};
ghost use Rattle.plan_table.specs.Table.{to_table, to_plan, ruled};
ghost use Rattle.plan_table.specs.GivenRows.{LaidAs};

mod rows;

use crate::rows::{table_rules, take_rows, write_rows};
use plan::reader::{is_form, read_into};
use plan::refusal::Refusal;
use plan::rules::{join_rules, spawn_rules};
use plan::sheet::Sheet;
use plan_writer::encode;

// Writes the open table of the plan that the bytes hold, and tells the number of rows.
pub fn plan_to_table(bytes: &[u8], rows: &mut [u16]) -> Result<usize, Refusal>
    ensures { record { answer = answer_of result; buffer = rows.new } ≡ to_table bytes.now rows.old }
{
    let mut plan = Sheet::blank();
    let mut entering = [0u8; 2048];
    read_into(bytes, &mut plan, &mut entering)?;
    if rows.len() < 5 * plan.actions {
        return Err(Refusal::Short);
    }
    write_rows(&plan, rows);
    Ok(plan.actions)
}

// Writes the bytes, in its form, of the plan whose jobs and actions the arrays have, where it keeps its rules and there is room, and
// tells their number.
fn close(plan: &mut Sheet, bytes: &mut [u8]) -> Result<usize, Refusal>
    requires { Some (LaidAs plan.old) }
    ensures { LaidAs plan.old
        ⇒ (λ p. record { answer = answer_of result; buffer = bytes.new } ≡ encoded plan.old.form (ruled plan.old.form p) bytes.old) }
{
    let mut entering = [0u8; 2048];
    if !spawn_rules(plan) {
        return Err(Refusal::Spawn);
    }
    if !join_rules(plan, &mut entering) {
        return Err(Refusal::Join);
    }
    encode(plan.form, plan, bytes)
}

// Writes the bytes, in the form told, of the plan that an open table holds, and tells the number of bytes.
pub fn table_to_plan(form: u32, table: &[u16], bytes: &mut [u8]) -> Result<usize, Refusal>
    ensures { record { answer = answer_of result; buffer = bytes.new } ≡ to_plan form table.now bytes.old }
{
    if !is_form(form) {
        return Err(Refusal::Form);
    }
    if !table_rules(table) {
        return Err(Refusal::Table);
    }
    let rows = table.len() / 5;
    if 2048 < rows {
        return Err(Refusal::Range);
    }
    let mut plan = Sheet::blank();
    take_rows(form, table, &mut plan)?;
    close(&mut plan, bytes)
}
