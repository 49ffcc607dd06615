// Webs of one family, by definition number: `recover` of pseudo_ssa.rs, but for its tokens, which crates chains and walks see to. A
// definition is named by its number, 0 the entry, then 1, 2, .. in the order of the defining lines.
//
//   sets              the definitions that reach a line; merging at the reads
//   representatives   the representatives: the Rust's `Dsu`
//   numbers           web numbers of definitions and reads
// Contracts cite Rattle.definitions.specs.Recover; proofs/FamilyNumbers says that what is computed by definition number are the webs of
// `webs_of`.

#![tactic(auto)]

pub mod numbers;
pub mod representatives;
pub mod sets;
