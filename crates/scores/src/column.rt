// A column: the squared distances of the rows from one of them, in places of a lent slice from an index on.
ghost use Rattle.std.specs.Prelude.{◌+◌, ◌-◌, ◌*◌, ◌≤◌, ◌<◌, ◌≡◌, length, get_or};
ghost use Rattle.lists.specs.Placed.{Placed};
ghost use Rattle.limits.specs.Limits.{total, distance_limit};
ghost use Rattle.geometry.specs.Clauses.{Table};
ghost use Rattle.scores.specs.Clauses.{Gainable, Shifting, Shiftable, ColumnFilled, score_of};

use figures::distance::squared_distance;

// above every squared distance of two rows
const OFFSET: u32 = 1073741824;

// Puts the column of row j into the m places from `base` on.
pub fn fill_column(rows: &[i32], m: usize, n: usize, j: usize, columns: &mut [u32], base: usize)
    requires { Table rows.now m n × ((j < m) × (base + m ≤ length columns.old)) }
    ensures { ColumnFilled rows.now m n j base columns.old columns.new }
{
    for i in 0..m {
        columns[base + i] = squared_distance(rows, n, i, j) as u32;
    }
}

// The product of two numbers.
fn product(t: u32, distance: u32) -> u64
    ensures { result ≡ t * distance }
{
    (t as u64) * (distance as u64)
}

// A score with t times a squared distance added.
fn raised(score: u64, t: u32, distance: u32) -> u64
    requires { (score ≤ distance_limit total) × (t ≤ total) }
    ensures { result ≡ score + t * distance }
{
    score + product(t, distance)
}

// A score with t times one squared distance added and t times another taken off. `OFFSET` is added to their difference, and t times it, which
// is the same for every row, taken off the score: so a row needs one product, of numbers that are 0 or more.
fn moved_score(score: u64, t: u32, gained: u32, lost: u32) -> u64
    requires { Shifting score t gained lost }
    ensures { result ≡ score + t * gained - t * lost }
{
    score + product(t, gained + OFFSET - lost) - product(t, OFFSET)
}

// Adds t times the column at `base` to the scores.
pub fn add_column(scores: &mut [u64], m: usize, columns: &[u32], base: usize, t: u32)
    requires { Gainable m scores.old columns.now base t }
    ensures { Placed (λ i. score_of scores.old i + t * get_or columns.now (base + i) 0) 0 scores.old scores.new m }
{
    for i in 0..m {
        scores[i] = raised(scores[i], t, columns[base + i]);
    }
}

// Adds t times the column at `gained` to the scores, and takes t times the column at `lost` off.
pub fn move_columns(
    scores: &mut [u64],
    m: usize,
    columns: &[u32],
    gained: usize,
    lost: usize,
    t: u32,
)
    requires { Shiftable m scores.old columns.now gained lost t }
    ensures { Placed (λ i. score_of scores.old i + t * get_or columns.now (gained + i) 0 - t * get_or columns.now (lost + i) 0)
        0 scores.old scores.new m }
{
    for row in 0..m {
        scores[row] = moved_score(scores[row], t, columns[gained + row], columns[lost + row]);
    }
}
