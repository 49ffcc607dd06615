// The theory of webs: no code, only theorems over the definitions. See proofs/Lib.antt.

#![tactic(auto)]
