// The two entries of the open table undo one another (document 01, "Plan"; document 02, L5), each way round a theorem of its own.
ghost use Rattle.std.specs.Prelude.{◌≡◌};
ghost use Rattle.plan_writer.specs.Written.{answer_of};
ghost use Rattle.plan_table.specs.Table.{to_table, to_plan};
ghost use Rattle.own.specs.RoundTrip.{plan_back, table_back};

use plan::refusal::Refusal;
use plan_table::{plan_to_table, table_to_plan};

// Opens the plan into a table and closes the table again in the plan's form, its first byte: what comes back is the plan's bytes.
pub fn plan_back(plan: &[u8], rows: &mut [u16], bytes: &mut [u8]) -> Result<usize, Refusal>
    ensures bytes_after { record { answer = answer_of result; buffer = bytes.new }
        ≡ plan_back plan.now rows.old bytes.old }
    ensures rows_after { rows.new ≡ (to_table plan.now rows.old).buffer }
{
    let n = plan_to_table(plan, rows)?;
    table_to_plan(u32::from(plan[0]), &rows[0..5 * n], bytes)
}

// Closes the table into a plan's bytes, in the form told, and opens them again: what comes back is the table's rows.
pub fn table_back(
    form: u32,
    table: &[u16],
    bytes: &mut [u8],
    rows: &mut [u16],
) -> Result<usize, Refusal>
    ensures rows_after { record { answer = answer_of result; buffer = rows.new }
        ≡ table_back form table.now bytes.old rows.old }
    ensures bytes_after { bytes.new ≡ (to_plan form table.now bytes.old).buffer }
{
    let n = table_to_plan(form, table, bytes)?;
    plan_to_table(&bytes[0..n], rows)
}
