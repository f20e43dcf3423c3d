#![tactic(auto)]

// Proof-only: laws of lists. The modules are in specs/.
