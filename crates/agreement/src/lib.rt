// Whether an envelope agrees with the rows that it is said to be drawn from (document 01, "Texts"): its figures are those that the
// check gives of its weights. Reading a record and writing one ask the same.
#![tactic(auto)]

ghost use Rattle.std.specs.Prelude.{◌≡◌, true, ◌≤◌, length, drop};
ghost use Rattle.geometry.specs.Table.{rows_within};
ghost use Rattle.limits.specs.Limits.{total, row_limit, channel_limit};
ghost use Rattle.checking.specs.Check.{checked_outcome};
ghost use Rattle.agreement.specs.Agreement.{all_zero, same_places, ball_agrees, agrees as Agreement·agrees};

use ball::Ball;
use checking::check_weights;

// Whether the weights from place m on are 0.
fn none_past(weights: &[u32], m: usize) -> bool
    ensures { result ≡ all_zero (drop m weights.now) }
{
    for i in m..weights.len() {
        let weight = weights[i];
        if weight != 0 {
            return false;
        }
    }
    true
}

// Whether the first n places are the same.
fn same_places(a: &[i64], b: &[i64], n: usize) -> bool
    requires { (n ≤ length a.now) × (n ≤ length b.now) }
    ensures { result ≡ same_places n a.now b.now }
{
    a[..n] == b[..n]
}

// Whether the ball that a check gives is this one, for n channels.
fn ball_agrees(n: usize, ball: Ball, given: Ball) -> bool
    requires { n ≤ channel_limit }
    ensures { result ≡ ball_agrees n ball (checked_outcome (Ok given)) }
{
    same_places(&ball.scaled_centre, &given.scaled_centre, n)
        && ball.scaled_squared_radius == given.scaled_squared_radius
        && ball.scaled_lower_bound == given.scaled_lower_bound
        && ball.settled == given.settled
}

// Whether no weight stands past the m rows, and the check of the others gives this ball. The rows are known to be within limits.
pub fn agrees(rows: &[i32], m: usize, n: usize, ball: Ball, weights: &[u32]) -> bool
    requires { rows_within row_limit rows.now m n ≡ true }
    ensures { result ≡ Agreement·agrees total row_limit rows.now m n ball weights.now }
{
    if weights.len() < m || !none_past(weights, m) {
        return false;
    }
    match check_weights(rows, m, n, &weights[..m]) {
        Ok(given) => ball_agrees(n, ball, given),
        Err(_) => false,
    }
}
