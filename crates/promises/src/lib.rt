// What was promised stands in specs/: the user's demands as theorems about the functions' own
// definitions, one file a demand, and the proved cases of RULES 15. There is no code.
#![tactic(auto)]
