// The spawn rules and the join rules of a plan, over its arrays (document 01, "Plan"). These functions answer a truth value: each has one
// refusal, which the caller names, and the definitions are tests.
ghost use Rattle.std.specs.Prelude.{suc, ◌≤◌, ◌<◌, ◌≡◌, length, T};
ghost use Rattle.plan.specs.Contract.{Some, ◌⇒◌};
ghost use Rattle.plan.specs.Plan.{total};
ghost use Rattle.plan.specs.Rules.{spawn_rules, join_rules};
ghost use Rattle.plan.specs.Sheet.{LaidIn, SpawnedIn};
ghost use Rattle.plan.specs.Entering.{Unentered, Entered};
ghost use Rattle.plan.specs.Listed.{entry, Listed};
ghost use Rattle.plan.specs.Kept.{SpawnAt, SpawnTold, AllTold, JoinAt, JoinsFrom, JoinTold, LastsIn, LastsTold};

use crate::sheet::Sheet;

// Lists the places of a row whose numbers are not 0, and says how many there are: whether an action spawns, or sends a join, is hard
// to foresee, so that a loop over all actions that branches on it would cost more than this list, whose next free place is worked out
// without a branch.
fn note(row: &[u16], list: &mut [u16; 2048]) -> usize
    requires { length row.now ≤ 2048 }
    ensures { Listed (entry row.now) (length row.now) result list.new }
{
    let mut count = 0;
    for (k, x) in row.iter().enumerate() {
        list[count] = k as u16;
        count += usize::from(0 < *x);
    }
    count
}

// Records the job that action k spawns, or tells that it may not spawn it.
fn spawn_rule(k: usize, plan: &mut Sheet) -> bool
    requires { Some (SpawnAt k plan.old) }
    ensures same_form { plan.new.form ≡ plan.old.form }
    ensures same_counts { (plan.new.jobs ≡ plan.old.jobs) × (plan.new.actions ≡ plan.old.actions) }
    ensures told { SpawnAt k plan.old ⇒ SpawnTold (suc k) result plan.new }
{
    let c = plan.child_at(k) - 1;
    if plan.jobs <= c {
        return false;
    }
    let q = plan.job_at(k);
    if c <= q {
        return false;
    }
    if plan.spawn_of(c) != 0 {
        return false;
    }
    let first = plan.first_of(q);
    plan.set_spawner(c, q, k - first + 1);
    true
}

// No action breaks a rule of its own spawn. The same walk over those that send a join is `joins_kept`; one of them writes the plan's
// arrays and the other the counts of joins, so that one walk of both would have to be told which.
fn spawns_kept(plan: &mut Sheet) -> bool
    requires { Some (LaidIn plan.old) }
    ensures same_form { plan.new.form ≡ plan.old.form }
    ensures same_counts { (plan.new.jobs ≡ plan.old.jobs) × (plan.new.actions ≡ plan.old.actions) }
    ensures told { LaidIn plan.old ⇒ (λ p. SpawnTold (total p) result plan.new p) }
{
    let mut list = [0u16; 2048];
    let row = &plan.children[..plan.actions];
    let count = note(row, &mut list);
    for k in &list[..count] {
        if !spawn_rule(usize::from(*k), plan) {
            return false;
        }
    }
    true
}

// Every job but 0 was spawned. A loop and no `all`, as in `lasts_send`: a closure would have a contract of its own, which says what the
// loop's invariant does.
fn all_spawned(plan: &Sheet) -> bool
    requires { plan.now.jobs ≤ 256 }
    ensures { AllTold plan.now result }
{
    for c in 1..plan.jobs {
        if plan.spawn_of(c) == 0 {
            return false;
        }
    }
    true
}

// Whether every job but 0 is spawned exactly once, by a job of smaller number. Where they are, the arrays tell of each job who
// spawned it and where.
pub fn spawn_rules(plan: &mut Sheet) -> bool
    requires { Some (LaidIn plan.old) }
    ensures same_form { plan.new.form ≡ plan.old.form }
    ensures same_counts { (plan.new.jobs ≡ plan.old.jobs) × (plan.new.actions ≡ plan.old.actions) }
    ensures told { LaidIn plan.old ⇒ (λ p. (result ≡ spawn_rules p) × (T result → SpawnedIn plan.new p)) }
{
    spawns_kept(plan) && all_spawned(plan)
}

// Counts the join that action k sends, or tells that it may not send it. The target and the spawn are both noted as positions plus
// 1, so that one is later than the other where its number is larger.
fn join_rule(k: usize, plan: &Sheet, entering: &mut [u8; 2048]) -> bool
    requires { Some (JoinAt k plan.now entering.old) }
    ensures { JoinAt k plan.now entering.old ⇒ JoinTold (suc k) result entering.new }
{
    let t = plan.target_at(k);
    let j = plan.job_at(k);
    if j == 0 {
        return false;
    }
    if t <= plan.spawn_of(j) {
        return false;
    }
    let q = plan.parent_of(j);
    let target = plan.first_of(q) + (t - 1);
    if plan.first_of(q + 1) <= target {
        return false;
    }
    if plan.child_at(target - 1) != 0 {
        return false;
    }
    if 8 <= entering[target] {
        return false;
    }
    entering[target] += 1;
    true
}

// No action breaks a rule of its own join.
fn joins_kept(plan: &Sheet, entering: &mut [u8; 2048]) -> bool
    requires { Some (JoinsFrom plan.now entering.old) }
    ensures { JoinsFrom plan.now entering.old ⇒ (λ p. JoinTold (total p) result entering.new p) }
{
    let mut list = [0u16; 2048];
    let row = &plan.targets[..plan.actions];
    let count = note(row, &mut list);
    for k in &list[..count] {
        if !join_rule(usize::from(*k), plan, entering) {
            return false;
        }
    }
    true
}

// The last action of every job but 0 sends a join.
fn lasts_send(plan: &Sheet) -> bool
    requires { Some (LastsIn plan.now) }
    ensures { LastsTold plan.now result }
{
    for j in 1..plan.jobs {
        if plan.target_at(plan.first_of(j + 1) - 1) == 0 {
            return false;
        }
    }
    true
}

// Whether joins go to later actions of the parent, not right after a spawn, at most 8 into one, and every last action but
// job 0's sends one. Where they do, `entering` tells of each action how many enter it. It is part of its callers, so that its list of
// 4 KB takes the place of that of the spawn rules and `check` stays below 64 KiB of stack.
#[inline(always)]
pub fn join_rules(plan: &Sheet, entering: &mut [u8; 2048]) -> bool
    requires { Some (SpawnedIn plan.now) × Unentered entering.old }
    ensures { SpawnedIn plan.now
        ⇒ (λ p. (result ≡ join_rules p) × (T result → Entered p entering.new × (length entering.new ≡ 2048))) }
{
    lasts_send(plan) && joins_kept(plan, entering)
}
