// The theory speaks of this scheduler, as specs/ shows without code: a state is a view of the
// abstract scheduler, its calls are moves, every history is a run, and so is the worst pattern.
#![tactic(auto)]
