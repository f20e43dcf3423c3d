#![tactic(auto)]

// Proof-only: the starred trial figures of document 01, the range of TOC and alert settings on a few verdicts, computed from the
// definitions. The tables are in specs/.
