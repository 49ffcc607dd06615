// What `recover_loops`, `recover_goto_loops` and `to_for` ask of a line of the lent columns: its whole text, its condition, its step.
//
// Question 2 is answered yes wherever it is required; the texts of a run of tokens are then one part of the lent text, and nothing is copied.
// Contracts cite Rattle.definitions.specs.Condition, ToFor, Passes and RecoverLoops.

#![tactic(auto)]

pub mod conditions;
pub mod texts;
