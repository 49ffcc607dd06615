// What holds of the loop passes: no code, only theorems over the definitions. See proofs/Lib.antt.

#![tactic(auto)]
