// X of a set of weights.
ghost use Rattle.std.specs.Prelude.{◌≡◌, ◌≤◌, ◌<◌, nat_abs};
ghost use Rattle.geometry.specs.Figures.{scaled_centre};
ghost use Rattle.geometry.specs.Move.{weight_of};
ghost use Rattle.geometry.specs.Table.{coordinate};
ghost use Rattle.limits.specs.Limits.{total, coordinate_limit};
ghost use Rattle.geometry.specs.Clauses.{Table, WeightsWithin, IsCentre};
ghost use Rattle.figures.specs.Clauses.{Weighted};

use limits::CHANNELS;

// A weight times a coordinate.
fn weighted(weight: u32, a: i32) -> i64
    requires { (weight ≤ total) × (nat_abs a ≤ coordinate_limit) }
    ensures { Weighted weight a result }
{
    (weight as i64) * (a as i64)
}

// X of channel k.
fn centre_of_channel(rows: &[i32], m: usize, n: usize, weights: &[u32], k: usize) -> i64
    requires { Table rows.now m n × (WeightsWithin total m weights.now × (k < n)) }
    ensures { result ≡ scaled_centre (coordinate rows.now n) (weight_of weights.now) m k }
{
    let mut sum: i64 = 0;
    for i in 0..m {
        sum += weighted(weights[i], rows[i * n + k]);
    }
    sum
}

// X in its eight places.
pub fn scaled_centre(rows: &[i32], m: usize, n: usize, weights: &[u32]) -> [i64; CHANNELS]
    requires { Table rows.now m n × WeightsWithin total m weights.now }
    ensures { IsCentre rows.now m n weights.now result }
{
    let mut scaled_centre = [0i64; CHANNELS];
    for k in 0..n {
        scaled_centre[k] = centre_of_channel(rows, m, n, weights, k);
    }
    scaled_centre
}
