// Back edges, the gotos of a body, and the header of a loop, over the words of crate `plan`. Nothing of the listing is copied.
//
// Contracts cite the definitions of Rattle.definitions.specs.RecoverGotoLoops, of the lines that the words stand for.

#![tactic(auto)]

pub mod body;
pub mod edges;
pub mod headers;
pub mod words;
