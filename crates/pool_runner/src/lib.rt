// Runs from a central pool (document 02, L1): all rounds, and the entry. What such a run is stands in crate `pools`. It relies on what the
// crates below promise, and cites their laws only.
#![tactic(auto)]

pub mod entry;
mod run;
