// The plan of `recover_loops`: guarded do-while loops made while or for loops, as words of crate `plan`. Nothing of the listing is copied.
//
// The control flow is the Rust's, index by index. Contracts cite `recover_loops`, `loop_turn` and `to_for` of Rattle.definitions.specs, of the
// lines that the plan stands for; specs/Words.antt has what is asked of single words.

#![tactic(auto)]

pub mod for_loops;
pub mod turns;
