// This crate has what every crate uses and none owns: searches, sums, tests of every number, lists
// by index and folds stand in specs/, and their laws in proofs/. It has no code.
#![tactic(auto)]
