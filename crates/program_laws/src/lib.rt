#![tactic(auto)]

// Proof-only: what holds of the programs, each by itself and together.
