// Strings of JSON text, into lent text: code points, escapes, whole strings. Each function reads the start of a slice and gives what it
// found and the rest.
//
// Each takes time linear in the bytes that it passes over. A string's bytes are copied once, into the text; a byte that stands for itself is
// copied in the loop of `strings::characters` itself. The answers are what the parsers of Rattle.json_definitions.specs.Strings give.

#![tactic(auto)]

pub mod bytes;
pub mod escapes;
pub mod points;
pub mod strings;
