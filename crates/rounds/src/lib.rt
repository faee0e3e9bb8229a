// All rounds of a run: the workers, who of them holds a job or is idle and which have requests to serve, and the order in which they
// take turns, ask and serve.
// It relies on what the crates below promise, and cites their laws only.
#![tactic(auto)]

mod account;
pub mod run;
mod steal;
