// The negation of a leading test's condition: what `recover_goto_loops` makes of `if (..) break;`.
//
// The condition is the tokens of a line behind its first up to a place g, without the ` (` in front and the `) ` at the end; empty ones do
// not count. Nothing of it is copied but into the destination.

#![tactic(auto)]

pub mod adding;
pub mod comparison;
pub mod test;
