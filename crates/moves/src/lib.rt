// One move (document 01): the far and the near row by their scores, g and d², t, and the weights after it.
#![tactic(auto)]

pub mod distances;
pub mod select;
pub mod step;

// The row that a pass over the rows holds, and its score.
#[derive(Clone, Copy)]
pub struct Selected {
    pub row: usize,
    pub score: u64,
}

// The two rows of a move, the score of the far row, g and d².
#[derive(Clone, Copy)]
pub struct Pair {
    pub far: usize,
    pub near: usize,
    pub score: u64,
    pub difference: u64,
    pub separation: u64,
}
