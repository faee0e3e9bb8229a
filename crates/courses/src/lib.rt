// Rows, living jobs and schedules: their meaning in specs/. In proofs/ the theory of courses, rounds of turns in which each worker works
// on the job that it has in that round: what holds of the rows, the weights, the peak and the rounds of every kind of run.
#![tactic(auto)]
