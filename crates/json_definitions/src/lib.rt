// Definitions only: specs/ says which JSON texts are read, as which listing, and what is written.

#![tactic(auto)]
