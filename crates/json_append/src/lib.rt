// Writing JSON text into a lent slice: bytes, strings, kinds, numbers, as methods of a writer that knows the place behind what it wrote.
//
// What has no room is only counted, so that no function asks for room, and a slice of length 0 tells how long a text is. A string is written by runs of
// bytes that stand for themselves, which are looked for eight at a time; each function takes time linear in what it writes. Contracts: `Wrote` of
// specs/Appended.antt, of the texts of Rattle.json_definitions.specs.Writer; `sizes` counts without writing, by specs/Sizes.antt.

#![tactic(auto)]

pub mod sizes;
pub mod strings;
pub mod values;
pub mod writer;
