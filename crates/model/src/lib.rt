// A listing in memory: reading the columns of lines, addresses, tokens and text that are lent.
//
// The columns and the listing that they stand for: Rattle.definitions.specs.Columns. Only this crate sees how a word is made.

#![tactic(auto, using(crate::proofs::Access::access))]

mod columns;
pub mod kind;
pub mod listing;
