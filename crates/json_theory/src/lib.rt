// Pure theory of the JSON definitions: proofs/ has the laws.

#![tactic(auto)]
