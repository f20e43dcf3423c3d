#![tactic(auto)]

// Proof-only: the definitions of document 01 about rows and weights, and their laws. The modules are in specs/.
