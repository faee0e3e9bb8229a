// The theory of lines of jobs (document 000, the section on space), all of it in proofs/: the frames of living jobs weigh no more than
// one heaviest path for each line that is not empty. A line is a list of jobs, as the one that a worker holds and then its deque.
// It knows no plan bytes, no requests and no choices: a plan is a `Shape`, and what is done a number for each job.
#![tactic(auto)]
