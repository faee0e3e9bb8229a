// The rows of an open table (document 01, "Plan"; document 02, L5): their rules, and from rows to a plan and back.
ghost use Rattle.std.specs.Prelude.{◌≡◌, ◌+◌, ◌*◌, ◌/◌, ◌%◌, ◌≤◌, ◌<◌, ◌++◌, length, drop, eqb};
ghost use Rattle.plan.specs.Test.{both};
ghost use Rattle.plan.specs.Contract.{Some, ◌⇒◌};
ghost use Rattle.plan.specs.Sheet.{job_at, Blank};
ghost use Rattle.plan_table.specs.Table.{table_of, row_rules, rows_of};
ghost use Rattle.plan_table.specs.GivenRows.{RowsGiven, row_on, with_row, fits_at, TableKept, cost_stands, RowsTaken, RowTaken, Taken};

use plan::refusal::Refusal;
use plan::sheet::Sheet;

// Writes the row of the action at place k.
fn write_row(k: usize, plan: &Sheet, rows: &mut [u16])
    requires { (k < 2048) × (job_at plan.now k < 256) × (5 * k + 5 ≤ length rows.old) }
    ensures { rows.new ≡ with_row rows.old (5 * k) (row_on plan.now k) }
{
    let at = 5 * k;
    let j = plan.job_at(k);
    rows[at] = j as u16;
    rows[at + 1] = plan.frame_of(j) as u16;
    rows[at + 2] = plan.child_at(k) as u16;
    rows[at + 3] = plan.target_at(k) as u16;
    rows[at + 4] = plan.cost_at(k) as u16;
}

// Writes the rows of the actions, in plan order.
pub fn write_rows(plan: &Sheet, rows: &mut [u16])
    requires { Some (RowsGiven plan.now) × (5 * plan.now.actions ≤ length rows.old) }
    ensures { RowsGiven plan.now ⇒ (λ p. rows.new ≡ table_of p ++ drop (5 * plan.now.actions) rows.old) }
{
    for k in 0..plan.actions {
        write_row(k, plan, rows);
    }
}

// A row may stand below the row before it.
#[tactic(auto, unfolding(crate::specs::GivenRows::fits_at))]
fn row_goes_on(table: &[u16], at: usize) -> bool
    requires { (at % 5 ≡ 0) × (at + 5 ≤ length table.now) }
    ensures { result ≡ fits_at table.now at }
{
    if 256 < table[at + 2] {
        return false;
    }
    if 256 < table[at + 3] {
        return false;
    }
    if at == 0 {
        return table[0] == 0;
    }
    let before = usize::from(table[at - 5]);
    let here = usize::from(table[at]);
    if here == before + 1 {
        return true;
    }
    if here != before {
        return false;
    }
    table[at + 1] == table[at - 4]
}

// The table has whole rows, at least one, and keeps its row rules.
pub fn table_rules(table: &[u16]) -> bool
    ensures { result ≡ both (eqb (length table.now % 5) 0) (row_rules (rows_of table.now)) }
{
    if table.is_empty() {
        return false;
    }
    if table.len() % 5 != 0 {
        return false;
    }
    for k in 0..table.len() / 5 {
        if !row_goes_on(table, 5 * k) {
            return false;
        }
    }
    true
}

// A cost may stand in a table of a form: 1 to 15, and in form 1 no other than 1.
#[tactic(auto, unfolding(crate::specs::GivenRows::cost_stands))]
fn cost_stands(form: u32, cost: u16) -> bool
    ensures { result ≡ cost_stands form cost }
{
    if form == 1 {
        return cost == 1;
    }
    1 <= cost && cost <= 15
}

// Takes row k over into the arrays, if its numbers and its place in its job are in range. Behind the last job begun the arrays have
// the end of the rows taken, so a row that begins a job finds its own place there.
fn take_row(form: u32, table: &[u16], k: usize, plan: &mut Sheet) -> Result<(), Refusal>
    requires { (k < length table.now / 5) × RowsTaken form table.now k plan.old }
    ensures { RowTaken form table.now k result plan.new }
{
    let at = 5 * k;
    let number = usize::from(table[at]);
    let weight = table[at + 1];
    let cost = table[at + 4];
    if weight == 0 {
        return Err(Refusal::Range);
    }
    if !cost_stands(form, cost) {
        return Err(Refusal::Range);
    }
    if 256 <= number {
        return Err(Refusal::Range);
    }
    if 255 <= k - plan.first_of(number) {
        return Err(Refusal::Range);
    }
    plan.set_frame(number, weight);
    plan.set_first(number + 1, k + 1);
    plan.set_action(k, number, table[at + 2], table[at + 3], cost);
    Ok(())
}

// Takes the rows over into the arrays, as a plan of that form.
pub fn take_rows(form: u32, table: &[u16], plan: &mut Sheet) -> Result<(), Refusal>
    requires { TableKept table.now × (length table.now / 5 ≤ 2048) × Blank plan.old }
    ensures { Taken form (rows_of table.now) result plan.new }
{
    let rows = table.len() / 5;
    for k in 0..rows {
        take_row(form, table, k, plan)?;
    }
    plan.set_counts(form, usize::from(table[5 * rows - 5]) + 1, rows);
    Ok(())
}
