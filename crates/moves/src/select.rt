// The far and the near row by their scores, each by one pass over the rows in order, so that ties go to the lowest row. Both pass the rows by
// blocks, and go through a block by its rows only where one of them may take the place of the row that is held.
ghost use Rattle.std.specs.Prelude.{◌+◌, ◌≤◌, ◌<◌, ◌≡◌, not, ltb, eqb, length};
ghost use Rattle.geometry.specs.Select.{farthest, nearest};
ghost use Rattle.geometry.specs.Move.{weight_of};
ghost use Rattle.geometry.specs.Clauses.{WeightsOf};
ghost use Rattle.limits.specs.Limits.{total, distance_limit};
ghost use Rattle.scores.specs.Clauses.{ScoresWithin, score_of};
ghost use Rattle.moves.specs.Clauses.{FoundRow, each_from, block_rows, FarHeld, NearHeld};

use crate::Selected;

// how many rows a block has: those that are tested together
const BLOCK: usize = 8;

// the top bit of a u64, which no score reaches
const TOP: u64 = 9223372036854775808;

// Whether a score is at most the best one, told by the top bit of a difference, which the machine finds for several scores at once.
fn at_most(score: u64, best: u64) -> bool
    requires { (score ≤ distance_limit total) × (best ≤ distance_limit total) }
    ensures { result ≡ not (ltb best score) }
{
    TOP <= TOP + best - score
}

// Whether no score of the block that starts at row `at` is above the best one.
fn block_at_most(scores: &[u64], at: usize, best: u64) -> bool
    requires { ScoresWithin (at + block_rows) scores.now × (best ≤ distance_limit total) }
    ensures { result ≡ each_from (λ i. not (ltb best (score_of scores.now i))) at block_rows }
{
    let mut each = true;
    for k in 0..BLOCK {
        each &= at_most(scores[at + k], best);
    }
    each
}

// Whether no row of the block that starts at row `at` has weight.
fn block_without_weight(weights: &[u32], at: usize) -> bool
    requires { at + block_rows ≤ length weights.now }
    ensures { result ≡ each_from (λ i. eqb (weight_of weights.now i) 0) at block_rows }
{
    let mut each = true;
    for k in 0..BLOCK {
        each &= weights[at + k] == 0;
    }
    each
}

// The far row of the rows before `end`, where that of the rows before `from` is held.
fn farther(scores: &[u64], from: usize, end: usize, mut held: Selected) -> Selected
    requires { FarHeld scores.now end from held × (end ≤ length scores.now) }
    ensures { FarHeld scores.now end end result }
{
    for row in from..end {
        let score = scores[row];
        if held.score < score {
            held = Selected { row, score };
        }
    }
    held
}

// The row with the largest score of all rows.
pub fn farthest_row(scores: &[u64], m: usize) -> Selected
    requires { (0 < m) × ScoresWithin m scores.now }
    ensures { FoundRow scores.now m (farthest ltb (score_of scores.now) m) result }
{
    let mut held = Selected {
        row: 0,
        score: scores[0],
    };
    let mut at = 0;
    // The step is a block.
    while BLOCK <= m - at {
        if !block_at_most(scores, at, held.score) {
            held = farther(scores, at, at + BLOCK, held);
        }
        at += BLOCK;
    }
    farther(scores, at, m, held)
}

// The near row of the rows before `end`, if one of them has weight, where that of the rows before `from` is held. A score is
// read past the test of the row's weight, since a compiler that may read it before takes both for every row.
fn nearer(scores: &[u64], weights: &[u32], from: usize, end: usize, mut held: Selected) -> Selected
    requires { NearHeld scores.now weights.now end from held × (ScoresWithin end scores.now × (end ≤ length weights.now)) }
    ensures { NearHeld scores.now weights.now end end result }
{
    for row in from..end {
        if 0 < weights[row] {
            let score = scores[row];
            if score < held.score {
                held = Selected { row, score };
            }
        }
    }
    held
}

// The row with the smallest score among the rows of weight above 0. What is held before the first of them is above every score.
pub fn nearest_row(scores: &[u64], weights: &[u32], m: usize) -> Selected
    requires { ScoresWithin m scores.now × WeightsOf total m weights.now }
    ensures { FoundRow scores.now m (nearest ltb (weight_of weights.now) (score_of scores.now) m) result }
{
    let mut held = Selected { row: 0, score: TOP };
    let mut at = 0;
    // The step is a block.
    while BLOCK <= m - at {
        if !block_without_weight(weights, at) {
            held = nearer(scores, weights, at, at + BLOCK, held);
        }
        at += BLOCK;
    }
    nearer(scores, weights, at, m, held)
}
