// Figures of rows and weights (document 01): the limits on lent rows, s of a row, d² of two rows, X and L.
// A table holds m rows of n channels, row by row. Rows and channels count from 0 in the code.
#![tactic(auto)]

pub mod bound;
pub mod centre;
pub mod distance;
pub mod table;
