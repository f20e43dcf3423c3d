// The limits on the table that a caller lends.
ghost use Rattle.std.specs.Prelude.{◌≡◌, ◌≤◌, leb, nat_abs, length};
ghost use Rattle.geometry.specs.Table.{places_within, rows_within};
ghost use Rattle.limits.specs.Limits.{channel_limit, coordinate_limit, row_limit};

use limits::{CHANNELS, COORDINATE_MOST, ROWS};

// n itself, in a form that shows a compiler that a loop over the channels is short.
pub fn channels(n: usize) -> usize
    requires { n ≤ channel_limit }
    ensures { result ≡ n }
{
    if n < CHANNELS { n } else { CHANNELS }
}

fn coordinate_within(coordinate: i32) -> bool
    ensures { result ≡ leb (nat_abs coordinate) coordinate_limit }
{
    -COORDINATE_MOST <= coordinate && coordinate <= COORDINATE_MOST
}

// Whether the first `count` places are within the coordinate limit.
fn coordinates_within(rows: &[i32], count: usize) -> bool
    requires { count ≤ length rows.now }
    ensures { result ≡ places_within coordinate_limit count rows.now }
{
    rows[..count]
        .iter()
        .all(|coordinate| coordinate_within(*coordinate))
}

// Whether m, n, the places and the coordinates are within limits. The product is formed once both factors are small.
pub fn rows_within(rows: &[i32], m: usize, n: usize) -> bool
    ensures { result ≡ rows_within row_limit rows.now m n }
{
    (1..=CHANNELS).contains(&n)
        && (1..=ROWS).contains(&m)
        && m * n <= rows.len()
        && coordinates_within(rows, m * n)
}
