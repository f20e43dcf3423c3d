// The check of anybody's weights (document 01, "Weights from anybody").
#![tactic(auto)]

ghost use Rattle.std.specs.Prelude.{◌≡◌, ◌≤◌, true, length};
ghost use Rattle.geometry.specs.Table.{rows_within};
ghost use Rattle.limits.specs.Limits.{total, row_limit};
ghost use Rattle.geometry.specs.Places.{weights_total};
ghost use Rattle.checking.specs.Check.{checking, checked_outcome};
ghost use Rattle.checking.specs.Clauses.{CheckPromise};

use ball::{Ball, ball_of};
use figures::centre;
use figures::table::rows_within;
use limits::TOTAL;
use moves::step::pair_of;
use refusal::{Kind, Refusal};

// The sum of the first m weights.
fn weights_total(weights: &[u32], m: usize) -> u64
    requires { (m ≤ row_limit) × (m ≤ length weights.now) }
    ensures { result ≡ weights_total m weights.now }
{
    let mut sum: u64 = 0;
    for i in 0..m {
        sum += weights[i] as u64;
    }
    sum
}

// The check of weights for rows that are known to be within limits. Refused: 8 for a list that is not of m places, then 12.
pub fn check_weights(rows: &[i32], m: usize, n: usize, weights: &[u32]) -> Result<Ball, Refusal>
    requires { rows_within row_limit rows.now m n ≡ true }
    ensures { checked_outcome result ≡ checking total row_limit rows.now m n weights.now }
{
    if weights.len() != m {
        return Err(Kind::OutsideLimits.into());
    }
    if weights_total(weights, m) != (TOTAL as u64) {
        return Err(Kind::Disagreement.into());
    }
    let scaled_centre = centre::scaled_centre(rows, m, n, weights);
    let pair = pair_of(rows, m, n, weights, &scaled_centre);
    Ok(ball_of(rows, m, n, weights, scaled_centre, pair))
}

// The figures of the weights that the caller lends, one for each of the first m rows of n channels. Refused: 8, then 12.
pub fn check(rows: &[i32], m: usize, n: usize, weights: &[u32]) -> Result<Ball, Refusal>
    ensures { CheckPromise rows.now m n weights.now (checked_outcome result) }
{
    if !rows_within(rows, m, n) {
        return Err(Kind::OutsideLimits.into());
    }
    check_weights(rows, m, n, weights)
}
