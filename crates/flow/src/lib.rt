// The flow graph of a listing: the steps of every line, over its blocks and its labels.
//
// Contracts cite Rattle.definitions.specs.FlowGraph.

#![tactic(auto)]

pub mod graph;
