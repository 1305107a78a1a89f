// Histories, without code: lists of calls on a node and what they make of a start, the job of an
// accepted release followed to its finish, and the worst pattern as such a list.
#![tactic(auto)]
