// The tokens that a plan's lines are made of, appended to the open line of the destination: conditions of guards, lines, and pieces. Each byte
// is copied once.
//
// Contracts cite `Adding` of Rattle.append.specs.Adds, `condition` of Rattle.definitions.specs.Condition and `piece` of
// Rattle.pieces.specs.Pieces.

#![tactic(auto)]

pub mod conditions;
pub mod tokens;
