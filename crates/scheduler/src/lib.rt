// The upper library of the build runner: it tests what a run is given, runs it and writes its schedule. What a run is stands in
// crate `runs`. It relies on what the crates below promise, and cites their laws only.
#![tactic(auto)]

pub mod length;
pub mod run;
pub mod write;
