// The ball round the reference rows of a sampling point (document 01), from weights of the rows: its figures X, M and L, and whether the
// weights are Settled. A table holds m rows of n channels, row by row. Rows and channels count from 0 in the code.
#![tactic(auto)]

ghost use Rattle.std.specs.Prelude.{◌≡◌, ◌*◌, ◌-◌, ◌≤◌};
ghost use Rattle.geometry.specs.Move.{scaled_squared_distance_of, is_settled, weight_of};
ghost use Rattle.geometry.specs.Scores.{weighted_squared_distance};
ghost use Rattle.geometry.specs.Table.{coordinate};
ghost use Rattle.limits.specs.Limits.{total, difference_limit};
ghost use Rattle.ball.specs.Ball.{ball_of, empty_ball};
ghost use Rattle.geometry.specs.Clauses.{Table, WeightsOf, IsCentre};
ghost use Rattle.moves.specs.Clauses.{Paired};

use figures::{bound, centre};
use limits::{CHANNELS, TOTAL};
use moves::Pair;

// The figures of a set of weights: X (places past n are 0), M, L, and whether the weights are Settled.
#[derive(Clone, Copy)]
pub struct Ball {
    pub scaled_centre: [i64; CHANNELS],
    pub scaled_squared_radius: u64,
    pub scaled_lower_bound: u64,
    pub settled: bool,
}

// Every figure 0, as beside a refusal. It is not derived, since edits that must be refused change its figures.
impl Default for Ball {
    ghost is_default = { λ b. b ≡ empty_ball };

    fn default() -> Ball {
        Ball {
            scaled_centre: [0i64; CHANNELS],
            scaled_squared_radius: 0,
            scaled_lower_bound: 0,
            settled: false,
        }
    }
}

// Whether the weights that have this pair of rows are Settled.
fn is_settled(pair: Pair) -> bool
    ensures { result ≡ is_settled pair.difference pair.separation }
{
    pair.difference <= pair.separation
}

// The figures of weights whose X and pair of rows are known, the pair by s: M is s of the far row.
pub fn ball_of(
    rows: &[i32],
    m: usize,
    n: usize,
    weights: &[u32],
    scaled_centre: [i64; CHANNELS],
    pair: Pair,
) -> Ball
    requires { Table rows.now m n
        × (WeightsOf total m weights.now
        × (IsCentre rows.now m n weights.now scaled_centre
        × Paired total rows.now m n weights.now (scaled_squared_distance_of total m n (coordinate rows.now n) (weight_of weights.now)) pair)) }
    ensures { result ≡ ball_of total m n (coordinate rows.now n) (weight_of weights.now) }
{
    let scaled_lower_bound = bound::scaled_lower_bound(rows, m, n, weights, &scaled_centre);
    let settles = is_settled(pair);
    Ball {
        scaled_centre,
        scaled_squared_radius: pair.score,
        scaled_lower_bound,
        settled: settles,
    }
}

// M by e of the far row: D times it, less L.
fn radius_of_score(score: u64, scaled_lower_bound: u64) -> u64
    requires { (score ≤ difference_limit total) × (scaled_lower_bound ≤ total * score) }
    ensures { result ≡ total * score - scaled_lower_bound }
{
    (TOTAL as u64) * score - scaled_lower_bound
}

// The figures of weights whose pair of rows is known, the pair by e.
pub fn ball_of_scores(rows: &[i32], m: usize, n: usize, weights: &[u32], pair: Pair) -> Ball
    requires { Table rows.now m n
        × (WeightsOf total m weights.now
        × Paired total rows.now m n weights.now (weighted_squared_distance m n (coordinate rows.now n) (weight_of weights.now)) pair) }
    ensures { result ≡ ball_of total m n (coordinate rows.now n) (weight_of weights.now) }
{
    let scaled_centre = centre::scaled_centre(rows, m, n, weights);
    let scaled_lower_bound = bound::scaled_lower_bound(rows, m, n, weights, &scaled_centre);
    let scaled_squared_radius = radius_of_score(pair.score, scaled_lower_bound);
    let settled = is_settled(pair);
    Ball {
        scaled_centre,
        scaled_squared_radius,
        scaled_lower_bound,
        settled,
    }
}
