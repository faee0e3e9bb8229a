// Requests and services, the second half of a round (document 01, "Worker and round"; document 02, L2).
ghost use Rattle.std.specs.Prelude.{◌≡◌};
ghost use Rattle.plan.specs.Contract.{Some, ◌⇒◌};
ghost use Rattle.crew.specs.Crew.{member};
ghost use Rattle.crew.specs.Line.{waiting_at, LiningUp, LinedUp, Gone, Beside};
ghost use Rattle.runs.specs.Steal.{thief as thief_of};
ghost use Rattle.deques.specs.Dequed.{Dequed, TookTop};
ghost use Rattle.turns.specs.Count.{Countable};
ghost use Rattle.rounds.specs.Account.{LayNoted, Serving, ServiceNoted};

use crate::account::{Account, laid, served};
use crew::line::Lines;
use crew::set::has;
use deques::Deques;
use runs::miss::Miss;
use runs::worker::Worker;

// Worker w lays a request at victim v.
pub fn lay(account: Account, w: usize, v: usize, lines: &mut Lines) -> Account
    requires { Some (LiningUp v w lines.old) × Countable account.tally }
    ensures { (LiningUp v w lines.old ⇒ LinedUp v w lines.new) × Beside v lines.old lines.new
        × LayNoted account w v result }
{
    lines.line_up(v, w);
    laid(account, w, v)
}

// What a service leaves: the worker that was served, what was taken for it, and the account.
#[derive(Clone, Copy)]
pub struct Served {
    pub who: usize,
    pub taken: Result<u8, Miss>,
    pub account: Account,
}

// Victim v, which has requests, serves the oldest.
pub fn serve(account: Account, v: usize, lines: &mut Lines, deques: &mut Deques) -> Served
    requires { Some (Serving account v lines.old) × Some (Dequed deques.old) }
    ensures { (Serving account v lines.old ⇒ Gone v 0 result.who lines.new) × Beside v lines.old lines.new
        × (Dequed deques.old ⇒ TookTop v (member account.holders v) result.taken deques.new)
        × ServiceNoted account v (waiting_at lines.new v) result.who result.taken result.account }
{
    let who = lines.leave_line(v, 0);
    let taken = deques[v].take_top(has(account.holders, v));
    let account = served(account, v, lines.waiting_at(v), who, taken);
    Served {
        who,
        taken,
        account,
    }
}

// The worker that was served: it holds the job that was taken, or is idle.
pub fn thief(taken: Result<u8, Miss>) -> Worker
    ensures { result ≡ thief_of taken }
{
    match taken {
        Ok(j) => Worker::Holding(j),
        Err(_) => Worker::Idle,
    }
}
