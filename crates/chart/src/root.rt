// The radius of a disc in units of 1/65,536: the smallest whole number whose square is at least M.
ghost use Rattle.std.specs.Prelude.{◌≤◌, ◌<◌};
ghost use Rattle.integers.specs.Reading.{Bounded};
ghost use Rattle.limits.specs.Limits.{total, distance_limit};
ghost use Rattle.chart.specs.Root.{ceiling_root, root_limit};

use limits::TOTAL;

// the smallest whole number whose square is at least the largest d²: 8 channels of (2 * 4,000)²
const SEPARATION_ROOT: u64 = 22_628;

// a whole number whose square is at least the largest M, which is D² times that
const ROOT_MOST: u64 = SEPARATION_ROOT * TOTAL as u64;

// By bisection: the square of `low` is below M, and the square of `high` is not.
pub fn ceiling_root(scaled_squared_radius: u64) -> u64
    requires { (0 < scaled_squared_radius) × (scaled_squared_radius ≤ distance_limit total) }
    ensures { Bounded (root_limit total) result (ceiling_root scaled_squared_radius) }
{
    let mut low: u64 = 0;
    let mut high: u64 = ROOT_MOST;
    // The step is half of what is left.
    while low + 1 < high {
        let middle = (low + high) / 2;
        if middle * middle < scaled_squared_radius {
            low = middle;
        } else {
            high = middle;
        }
    }
    low + 1
}
