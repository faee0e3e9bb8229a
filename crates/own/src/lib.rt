// Theorems over several entries, as functions: each hands on to one entry what another gave, and promises what then comes out.
// None has a `requires`.
#![tactic(auto)]

pub mod forms;
pub mod round_trip;
pub mod schedule;
