// The workers of a run as sets and lines: sets as the bits of a number, walked in rising number, and for each victim the line of
// those that wait on it, the oldest request first. What a worker is stands in crate `runs`.
#![tactic(auto)]

pub mod line;
pub mod set;
