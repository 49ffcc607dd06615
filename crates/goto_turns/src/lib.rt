// The plan of `recover_goto_loops`: label and goto loops made while or for loops, as words of crate `plan`. Nothing of the listing is copied.
//
// The control flow is the Rust's, index by index, but for the branch that inserts a line: no goto is left that leads to the label. Contracts cite
// `recover_goto_loops`, `goto_turn`, `looped` and `rewritten` of Rattle.definitions.specs, of the lines that the plan stands for.

#![tactic(auto)]

pub mod labels;
pub mod rewriting;
pub mod turns;
