// Passes over one family's tokens, along its chain: a step for each of them, and for some passes one for each line.
//
//   chained    what they take: columns, and a listing whose families and chains are known
//   reads      the lines that read a family, and whether its address is taken
//   writing    numbers and marks of the tokens
// Contracts cite Rattle.definitions.specs.Recover.

#![tactic(auto)]

pub mod chained;
pub mod reads;
pub mod writing;
