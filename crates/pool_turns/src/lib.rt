// A worker's turn in a run from a central pool (document 02, L1) over the runner's objects: the plan, the progress, the pool and the rows.
// It relies on what the crates below promise, and cites their laws only.
#![tactic(auto)]

pub mod turn;
