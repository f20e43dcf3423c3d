// s of a row, and d² of two rows.
ghost use Rattle.std.specs.Prelude.{ℕ, ◌*◌, ◌≤◌, nat_abs, pos, ◌-ℤ◌, ◌*ℤ◌};
ghost use Rattle.integers.specs.Sum.{square};
ghost use Rattle.geometry.specs.Figures.{squared_distance, scaled_squared_distance};
ghost use Rattle.geometry.specs.Table.{coordinate};
ghost use Rattle.limits.specs.Limits.{total, coordinate_limit, centre_limit, distance_limit, separation_limit};
ghost use Rattle.geometry.specs.Places.{centre_of};
ghost use Rattle.integers.specs.Reading.{Bounded};
ghost use Rattle.geometry.specs.Clauses.{CentreWithin, RowAt};

use crate::table::channels;
use limits::TOTAL;

// The square of a number.
pub(crate) fn square(d: i64) -> u64
    ghost most: { ℕ }
    requires { (nat_abs d ≤ most) × (most ≤ 2 * centre_limit total) }
    ensures { Bounded (most * most) result (square d) }
{
    (d * d) as u64
}

// One channel's part of s: the square of (D times coordinate - X).
fn scaled_square(a: i32, scaled_centre: i64) -> u64
    requires { (nat_abs a ≤ coordinate_limit) × (nat_abs scaled_centre ≤ centre_limit total) }
    ensures { Bounded ((2 * centre_limit total) * (2 * centre_limit total)) result (square (pos total *ℤ a -ℤ scaled_centre)) }
{
    square((TOTAL as i64) * (a as i64) - scaled_centre)
}

// s of a row.
pub fn scaled_squared_distance(rows: &[i32], n: usize, row: usize, scaled_centre: &[i64]) -> u64
    requires { RowAt rows.now n row × CentreWithin n scaled_centre.now }
    ensures { Bounded (distance_limit total) result (scaled_squared_distance total n (centre_of scaled_centre.now) (coordinate rows.now n row)) }
{
    let base = row * n;
    let mut sum: u64 = 0;
    for k in 0..channels(n) {
        sum += scaled_square(rows[base + k], scaled_centre[k]);
    }
    sum
}

// The square of the difference of two coordinates.
fn square_of_difference(a: i32, b: i32) -> u64
    requires { (nat_abs a ≤ coordinate_limit) × (nat_abs b ≤ coordinate_limit) }
    ensures { Bounded ((2 * coordinate_limit) * (2 * coordinate_limit)) result (square (a -ℤ b)) }
{
    square((a as i64) - (b as i64))
}

// d² of two rows.
pub fn squared_distance(rows: &[i32], n: usize, i: usize, j: usize) -> u64
    requires { RowAt rows.now n i × RowAt rows.now n j }
    ensures { Bounded separation_limit result (squared_distance n (coordinate rows.now n i) (coordinate rows.now n j)) }
{
    let base = i * n;
    let other = j * n;
    let mut sum: u64 = 0;
    for k in 0..channels(n) {
        sum += square_of_difference(rows[base + k], rows[other + k]);
    }
    sum
}
