// This is the mathematics of the schedule, without code. specs/ has what a reader must believe: a
// set's rules, a window's demand, the rounds, the worst pattern's offsets. proofs/ has the abstract
// scheduler, for any number of tasks and any H, the response bound and the worst pattern.
#![tactic(auto)]
