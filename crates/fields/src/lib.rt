// Bit fields, most significant bit first (document 01, "Plan"): the reader of the fields of plans and of schedules' headers, the
// window of bytes that an action's two numbers are cut from, and the one writer of a plan's fields. What these functions ask of
// their callers (a `requires`) each caller's proof shows to be met.
#![tactic(auto)]

pub mod field;
