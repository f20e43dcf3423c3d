// e of the rows, carried from move to move by the columns of squared distances, which are kept.
#![tactic(auto)]

pub mod carried;
pub mod column;
pub mod kept;
