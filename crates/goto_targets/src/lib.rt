// The target of the first goto of a line of a plan. Nothing of the listing is copied.
//
//   seeking    one run of tokens after the other
//   headers    a line that is kept, or a header made of several pieces
// Contracts cite `goto_target` of Rattle.definitions.specs, of the lines that the words stand for.

#![tactic(auto)]

pub mod headers;
pub mod seeking;
