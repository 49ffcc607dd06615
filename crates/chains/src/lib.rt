// The tokens of each family that has a definition, chained through the words that stand for them, so that a pass over one family's tokens
// walks none of the others.
//
//   links      what the word of a token in a chain says
//   tokens     the chains, from the last token to the first
// Contracts cite Rattle.definitions.specs.Recover.

#![tactic(auto)]

pub mod links;
pub mod tokens;
