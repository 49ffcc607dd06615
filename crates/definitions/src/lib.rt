// Definitions only: specs/ says what every call answers.

#![tactic(auto)]
