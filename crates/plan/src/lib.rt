// The lower library of the build runner: a plan as one array, its rules, and the reader of plan bytes.
// These are building blocks of the entries, which stand in the crates above: some ask something of their callers (a `requires`),
// and each caller's proof shows that it is met.
#![tactic(auto)]

mod action;
pub mod reader;
pub mod refusal;
pub mod rules;
pub mod sheet;
