// The measures of a plan (document 01, "Plan"; document 02, L5 and L7): its number of actions, T1, T∞, S1, and T1 divided by T∞.
#![tactic(auto)]

ghost use Rattle.std.specs.Prelude.{suc, ◌≡◌, length};
ghost use Rattle.plan.specs.Contract.{Some, ◌⇒◌};
ghost use Rattle.plan.specs.Sheet.{target_at, PlanIn};
ghost use Rattle.plan_measure.specs.Measure.{measures_of, measures, told, Divided};
ghost use Rattle.plan_measure.specs.Measure.{work as work_of, longest as longest_of, heaviest as heaviest_of};
ghost use Rattle.plan_measure.specs.Times.{at, PlanOf, ActionsOf, JobGiven, JobTimed, SendGiven, Sent, PassGiven, Passed};

use plan::reader::read_into;
use plan::refusal::Refusal;
use plan::sheet::Sheet;

// The number of actions, T1, T∞, S1, and T1 divided by T∞: the quotient and what remains.
#[derive(Clone, Copy, PartialEq, Eq, Debug)]
pub struct Measures {
    pub total: u32,
    pub work: u32,
    pub longest: u32,
    pub path: u32,
    pub parallel: u32,
    pub rest: u32,
}

// T1: the costs of the actions, added up.
pub fn work(plan: &Sheet) -> u32
    requires { Some (ActionsOf plan.now) }
    ensures { ActionsOf plan.now ⇒ (λ p. result ≡ work_of p) }
{
    let mut sum = 0;
    for k in 0..plan.actions {
        sum += plan.cost_at(k) as u32;
    }
    sum
}

// S1: each job's path weight is its frame and its parent's path weight.
fn heaviest(plan: &Sheet) -> u32
    requires { Some (PlanOf plan.now) }
    ensures { PlanOf plan.now ⇒ (λ p. result ≡ heaviest_of p) }
{
    let root = plan.frame_of(0);
    let mut path = [0u32; 256];
    path[0] = root;
    let mut most = root;
    for j in 1..plan.jobs {
        let q = plan.parent_of(j);
        let weight = plan.frame_of(j) + path[q];
        path[j] = weight;
        most = most.max(weight);
    }
    most
}

// The join that the action at place k sends, if it sends one; its job's spawn was done at time `spawned`. `late` tells of
// each action when the last join into it came. It and `time` are two arrays and no struct: the sends read one and write the other, and of a
// struct that is lent to be written each contract would have to say that the times stay.
fn send_join(
    k: usize,
    base: usize,
    spawned: u16,
    plan: &Sheet,
    time: &[u16; 2048],
    late: &mut [u16; 2048],
)
    requires { (length late.old ≡ 2048) × SendGiven k (suc k) base spawned (target_at plan.now) (at time.now) }
    ensures { (length late.new ≡ 2048)
        × Sent k (suc k) base spawned (target_at plan.now) (at time.now) (at late.old) (at late.new) }
{
    let sent = plan.target_at(k);
    if sent == 0 {
        return;
    }
    let target = base + (sent - 1);
    late[target] = late[target].max(spawned + time[k]);
}

// The joins that the actions at places `from` to `end` send, those of one child.
fn send_joins(
    from: usize,
    end: usize,
    base: usize,
    spawned: u16,
    plan: &Sheet,
    time: &[u16; 2048],
    late: &mut [u16; 2048],
)
    requires { (length late.old ≡ 2048) × SendGiven from end base spawned (target_at plan.now) (at time.now) }
    ensures { (length late.new ≡ 2048)
        × Sent from end base spawned (target_at plan.now) (at time.now) (at late.old) (at late.new) }
{
    for k in from..end {
        send_join(k, base, spawned, plan, time, late);
    }
}

// The joins of the child that the action at place k spawns, if it spawns one.
fn pass_child(
    k: usize,
    base: usize,
    spawned: u16,
    plan: &Sheet,
    time: &[u16; 2048],
    late: &mut [u16; 2048],
)
    requires { (length late.old ≡ 2048) × PassGiven k base spawned plan.now (at time.now) }
    ensures { (length late.new ≡ 2048)
        × Passed k base spawned plan.now (at time.now) (at late.old) (at late.new) }
{
    let child = plan.child_at(k);
    if child == 0 {
        return;
    }
    send_joins(
        plan.first_of(child - 1),
        plan.first_of(child),
        base,
        spawned,
        plan,
        time,
        late,
    );
}

// The times of one job's actions, counted from the job's spawn; those of its children are known.
fn time_job(
    base: usize,
    end: usize,
    plan: &Sheet,
    time: &mut [u16; 2048],
    late: &mut [u16; 2048],
) -> u16
    requires { Some (JobGiven base end plan.now time.old late.old) }
    ensures { JobGiven base end plan.now time.old late.old ⇒ JobTimed result time.new late.new }
{
    let mut done = 0;
    for k in base..end {
        done = done.max(late[k]) + plan.cost_at(k) as u16;
        time[k] = done;
        pass_child(k, base, done, plan, time, late);
    }
    done
}

// T∞, one pass from the highest job down: what an action of a job must follow lies, but for the job's spawn, in the job and
// those below it. Times are at most T∞, which is at most 15 × 2,048: 16 bits halve the arrays.
fn longest(plan: &Sheet) -> u32
    requires { Some (PlanOf plan.now) }
    ensures { PlanOf plan.now ⇒ (λ p. result ≡ longest_of p) }
{
    let mut time = [0u16; 2048];
    let mut late = [0u16; 2048];
    let mut most = 0;
    for j in (0..plan.jobs).rev() {
        most = time_job(
            plan.first_of(j),
            plan.first_of(j + 1),
            plan,
            &mut time,
            &mut late,
        );
    }
    u32::from(most)
}

// The measures of the plan that the arrays hold. T∞ is at least 1.
pub fn measure_read(plan: &Sheet) -> Measures
    requires { Some (PlanIn plan.now) }
    ensures { PlanIn plan.now ⇒ (λ p. result ≡ measures_of p) }
{
    let sum = work(plan);
    let most = longest(plan);
    Measures {
        total: plan.actions as u32,
        work: sum,
        longest: most,
        path: heaviest(plan),
        parallel: sum / most,
        rest: sum % most,
    }
}

// The measures of the plan that the bytes hold, or why they are turned down.
pub fn measure(bytes: &[u8]) -> Result<Measures, Refusal>
    ensures result_value { told result ≡ measures bytes.now }
    ensures divided { Divided result }
{
    let mut plan = Sheet::blank();
    let mut entering = [0u8; 2048];
    read_into(bytes, &mut plan, &mut entering)?;
    Ok(measure_read(&plan))
}
