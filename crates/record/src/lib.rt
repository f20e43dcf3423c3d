// Proof-only: what holds of records written and read together: the two round trips, those of our own envelopes, and the calls as they
// stand. The modules are in specs/ and proofs/.
#![tactic(auto)]
