// What `recover_goto_loops` and `to_for` ask of a piece of a plan: a line of the lent columns as it is, cut at its first goto with `continue;`
// or `break;` behind, or a closing brace. Nothing is copied; each function looks at each token of the line at most once or twice.
//
// Contracts cite the definitions of `piece` of specs/Pieces.antt.

#![tactic(auto)]

pub mod back;
pub mod counting;
pub mod initial;
pub mod leading;
pub mod piece;
pub mod reading;
