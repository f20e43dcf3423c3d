// L of a set of weights.
ghost use Rattle.std.specs.Prelude.{◌≡◌, ◌*◌, ◌≤◌};
ghost use Rattle.geometry.specs.Figures.{squared_length, weighted_squared_length, scaled_lower_bound};
ghost use Rattle.geometry.specs.Move.{weight_of};
ghost use Rattle.geometry.specs.Table.{coordinate};
ghost use Rattle.limits.specs.Limits.{total, channel_limit, centre_limit, length_limit};
ghost use Rattle.geometry.specs.Places.{centre_of};
ghost use Rattle.integers.specs.Reading.{Bounded};
ghost use Rattle.geometry.specs.Clauses.{CentreWithin, RowAt, Table, WeightsWithin, WeightsOf, IsCentre};

use crate::distance::square;
use limits::{CHANNELS, TOTAL};

// The squared length of a row.
fn squared_length(rows: &[i32], n: usize, row: usize) -> u64
    requires { RowAt rows.now n row }
    ensures { Bounded length_limit result (squared_length n (coordinate rows.now n row)) }
{
    let base = row * n;
    let mut sum: u64 = 0;
    for k in 0..n {
        sum += square(rows[base + k] as i64);
    }
    sum
}

// The squared length of X. One function over both types of places would need a ghost value of each place.
fn squared_length_of_centre(scaled_centre: &[i64; CHANNELS], n: usize) -> u64
    requires { CentreWithin n scaled_centre.now × (n ≤ channel_limit) }
    ensures { Bounded (channel_limit * centre_limit total * centre_limit total) result (squared_length n (centre_of scaled_centre.now)) }
{
    let mut sum: u64 = 0;
    for k in 0..n {
        sum += square(scaled_centre[k]);
    }
    sum
}

// The sum of weight times the row's squared length.
fn weighted_squared_length(rows: &[i32], m: usize, n: usize, weights: &[u32]) -> u64
    requires { Table rows.now m n × WeightsWithin total m weights.now }
    ensures { Bounded (length_limit * total) result (weighted_squared_length m n (coordinate rows.now n) (weight_of weights.now)) }
{
    let mut sum: u64 = 0;
    for i in 0..m {
        sum += (weights[i] as u64) * squared_length(rows, n, i);
    }
    sum
}

// L of the weights whose X is `scaled_centre`.
pub fn scaled_lower_bound(
    rows: &[i32],
    m: usize,
    n: usize,
    weights: &[u32],
    scaled_centre: &[i64; CHANNELS],
) -> u64
    requires { Table rows.now m n × (WeightsOf total m weights.now × IsCentre rows.now m n weights.now scaled_centre.now) }
    ensures { result ≡ scaled_lower_bound total m n (coordinate rows.now n) (weight_of weights.now) }
{
    let first = (TOTAL as u64) * weighted_squared_length(rows, m, n, weights);
    first - squared_length_of_centre(scaled_centre, n)
}
