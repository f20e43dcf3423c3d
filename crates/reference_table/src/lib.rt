// The table of an accepted reference text as the rows of a ball: laws only.
#![tactic(auto)]
