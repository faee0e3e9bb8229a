// Runs from a central pool (document 02, L1): their meaning in specs/, and what is proved of every one in proofs/. The code that runs is
// in `pool_runner`. Counts, workers and their tally are those of `runs`; rows, weights and order come from the theory of courses.
#![tactic(auto)]
