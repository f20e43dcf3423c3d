// Labels of rows: a row's label is told from those of other rows by its number. Whoever reads or writes rows tests their labels
// here.
ghost use Rattle.std.specs.Prelude.{◌≡◌, ◌≤◌, length, take};
ghost use Rattle.label.specs.RowLabel.{key_used};
ghost use Rattle.label.specs.Clauses.{FirstFieldRead, row_label_found};

use crate::{label_field, label_key};
use text::parts::Field;

// The number of a row's label, where the field is one.
pub fn row_label_key(field: &[u8]) -> Option<u64>
    ensures { result ≡ row_label_found field.now }
{
    label_key(field)
}

// The number of the row's label that is the first field of a line.
pub fn row_label_field(line: &[u8]) -> Field<Option<u64>>
    ensures { FirstFieldRead row_label_found line.now result.value result.end }
{
    label_field(line)
}

// Whether the number is among the first `count`.
pub(crate) fn used(keys: &[u64], count: usize, key: u64) -> bool
    requires { count ≤ length keys.now }
    ensures { result ≡ key_used key (take count keys.now) }
{
    for i in 0..count {
        if keys[i] == key {
            return true;
        }
    }
    false
}
