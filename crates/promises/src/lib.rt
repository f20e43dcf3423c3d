// Proof-only: each promise of docs/PROMISES.md as one name, whose type states it and whose value cites what proves it. All of it is in specs/.
#![tactic(auto)]
