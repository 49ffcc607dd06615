// The steps from one line to the lines that may come next, drawn as edges.
//
//   keywords   what a line says of its steps
//   nesting    the blocks of a listing beside its keywords
//   steps      the edges of a line
// Contracts cite Rattle.definitions.specs.FlowGraph.

#![tactic(auto)]

pub mod keywords;
pub mod nesting;
pub mod steps;
