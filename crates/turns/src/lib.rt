// A worker's turn over the runner's objects: the plan, the progress, the deques and the rows. It relies on what the crates below
// promise, and cites their laws only.
#![tactic(auto)]

pub mod count;
pub mod finish;
pub mod progress;
pub mod rows;
pub mod turn;
