// The family of a register, looked up: a register of at most 7 bytes that was looked up before is found by its bytes as one number, in one of
// 64 slots; any other through the table of the families.
//
//   slots      texts as numbers, and the slots
//   lookup     the families of a listing, with what was looked up
//   known      what was looked up, asked alone
// Contracts cite `found` of specs/Found.antt and `fam_of` of Rattle.definitions.specs.Family.

#![tactic(auto)]

pub mod known;
pub mod lookup;
mod slots;

pub use slots::Slot;
