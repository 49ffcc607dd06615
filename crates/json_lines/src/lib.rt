// Tokens and lines of JSON text, into lent columns. Each function reads the start of a slice and gives what it found and the rest. One pass
// over the text; a token's bytes are copied once.
//
// `members` and `tokens::token` give what the parsers of Rattle.json_definitions.specs.Reader give; arrays of tokens and lines are
// told by specs/InColumns.antt.

#![tactic(auto)]

pub mod lines;
pub mod members;
pub mod tokens;
