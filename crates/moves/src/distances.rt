// s of the rows under a centre.
ghost use Rattle.std.specs.Prelude.{◌≤◌, length};
ghost use Rattle.lists.specs.Placed.{Placed};
ghost use Rattle.limits.specs.Limits.{total};
ghost use Rattle.geometry.specs.Figures.{scaled_squared_distance};
ghost use Rattle.geometry.specs.Places.{centre_of};
ghost use Rattle.geometry.specs.Table.{coordinate};
ghost use Rattle.geometry.specs.Clauses.{CentreWithin, Table};

use figures::distance::scaled_squared_distance;

// Puts s of each row into the first m places.
pub fn fill_distances(rows: &[i32], m: usize, n: usize, scaled_centre: &[i64], scores: &mut [u64])
    requires { Table rows.now m n × (CentreWithin n scaled_centre.now × (m ≤ length scores.old)) }
    ensures { Placed (λ i. scaled_squared_distance total n (centre_of scaled_centre.now) (coordinate rows.now n i)) 0
        scores.old scores.new m }
{
    for i in 0..m {
        scores[i] = scaled_squared_distance(rows, n, i, scaled_centre);
    }
}
