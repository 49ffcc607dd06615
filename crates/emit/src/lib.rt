// Writes the lines that the plan of a loop pass stands for into the destination: each planned line once, each byte copied once.
//
// `tests` appends the conditions of headers, `lines` the other tokens, and ends lines. Contracts cite specs/ of this crate, `Line-of` and
// `render` of Rattle.plan.specs.Plan, and `Adding` of Rattle.append.specs.Adds.

#![tactic(auto)]

pub mod lines;
pub mod tests;
