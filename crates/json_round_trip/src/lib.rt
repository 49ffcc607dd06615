// The round trip of the JSON calls: no code, only theorems over the definitions. See proofs/Lib.antt.

#![tactic(auto)]
