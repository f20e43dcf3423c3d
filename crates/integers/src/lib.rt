#![tactic(auto)]

// Proof-only: laws of the whole numbers that every other crate's proofs cite. The modules are in specs/.
