// One move: the pair of rows with g and d², t, and the weights after it.
ghost use Rattle.std.specs.Prelude.{◌≡◌, ◌≤◌, ◌<◌};
ghost use Rattle.geometry.specs.Move.{scaled_squared_distance_of, capped_step, move_weight, weight_of};
ghost use Rattle.geometry.specs.Scores.{weighted_squared_distance};
ghost use Rattle.geometry.specs.Table.{coordinate};
ghost use Rattle.limits.specs.Limits.{total, separation_limit, difference_limit};
ghost use Rattle.integers.specs.Reading.{Bounded};
ghost use Rattle.geometry.specs.Clauses.{RowAt, Table, WeightsOf, IsCentre};
ghost use Rattle.moves.specs.Clauses.{PairWith, Paired, Movable, Scored};

use crate::distances::fill_distances;
use crate::select::{farthest_row, nearest_row};
use crate::{Pair, Selected};
use figures::distance::squared_distance;
use limits::{ROWS, TOTAL};

// The far and the near row that were found, with the far row's score, g and d².
fn pair_with(rows: &[i32], n: usize, far: Selected, near: Selected, difference: u64) -> Pair
    requires { RowAt rows.now n far.row × RowAt rows.now n near.row }
    ensures { PairWith rows.now n far near difference result }
{
    Pair {
        far: far.row,
        near: near.row,
        score: far.score,
        difference,
        separation: squared_distance(rows, n, far.row, near.row),
    }
}

// The far and the near row of the weights whose X is `scaled_centre`, with s of the far row, g and d².
pub fn pair_of(rows: &[i32], m: usize, n: usize, weights: &[u32], scaled_centre: &[i64]) -> Pair
    requires { Table rows.now m n × (WeightsOf total m weights.now × IsCentre rows.now m n weights.now scaled_centre.now) }
    ensures { Paired total rows.now m n weights.now
        (scaled_squared_distance_of total m n (coordinate rows.now n) (weight_of weights.now)) result }
{
    let mut distances = [0u64; ROWS];
    fill_distances(rows, m, n, scaled_centre, &mut distances);
    let far = farthest_row(&distances, m);
    let near = nearest_row(&distances, weights, m);
    let gap = far.score - near.score;
    let difference = gap / (TOTAL as u64);
    pair_with(rows, n, far, near, difference)
}

// The far and the near row of the weights whose e are `scores`, with e of the far row, g and d².
pub fn pair_of_scores(rows: &[i32], m: usize, n: usize, weights: &[u32], scores: &[u64]) -> Pair
    requires { Table rows.now m n × (WeightsOf total m weights.now × Scored rows.now m n weights.now scores.now) }
    ensures { Paired total rows.now m n weights.now
        (weighted_squared_distance m n (coordinate rows.now n) (weight_of weights.now)) result }
{
    let far = farthest_row(scores, m);
    let near = nearest_row(scores, weights, m);
    let difference = far.score - near.score;
    pair_with(rows, n, far, near, difference)
}

// t: the whole part of (g + d² - 1)/(2d²), never more than the near row's weight. Where the quotient is not below the weight no division is
// made; no smaller of the two is taken, of which the compiler would not keep that it has 32 bits.
pub fn transfer_of(difference: u64, separation: u64, weight: u32) -> u32
    requires { (0 < separation) × ((separation ≤ separation_limit) × (difference ≤ difference_limit total)) }
    ensures { Bounded weight result (capped_step difference separation weight) }
{
    let divisor = 2 * separation;
    let dividend = difference + separation - 1;
    if (weight as u64) * divisor <= dividend {
        return weight;
    }
    (dividend / divisor) as u32
}

// The weights after t has moved from one row to another (formula 31).
pub fn one_move(mut weights: [u32; ROWS], from: usize, to: usize, t: u32) -> [u32; ROWS]
    requires { Movable t from to weights }
    ensures { result ≡ move_weight t from to weights }
{
    weights[from] -= t;
    weights[to] += t;
    weights
}
