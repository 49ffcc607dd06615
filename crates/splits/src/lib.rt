// Splits of a listing: `split_points` and `Seg::Old` of pseudo_types.rs. The time is linear in the lines, the tokens, the gotos and the
// bytes of names, as long as few names share a bucket of the tables of families and labels.
//
//   starts     the split points by line
//   tokens     the numbers and marks of the tokens
//   call       the call, with questions 1 to 4
// Contracts cite Rattle.definitions.specs.SplitPoints and, of the call, Rattle.definitions.specs.Calls.

#![tactic(auto)]

pub mod call;
pub mod starts;
pub mod tokens;
