// Marks of numbers: a place for each remainder, marked where some number was met that has it. A number whose place is not marked was
// not met; any other is compared with those that were.
ghost use Rattle.std.specs.Prelude.{◌≡◌, true, ◌≤◌, length, set, take};
ghost use Rattle.label.specs.RowLabel.{key_used};
ghost use Rattle.label.specs.Marks.{mark_count, mark_place, Marked};

use crate::row::used;

// How many places there are: a prime, since the remainder of a label's number by a power of 2 is that of its last bytes.
pub const MARKS: usize = 4093;

const REMAINDERS: u64 = MARKS as u64;

// The place of a number's mark.
fn mark_place(key: u64) -> usize
    ensures { result ≡ mark_place key }
{
    (key % REMAINDERS) as usize
}

// Marks a number.
pub fn mark(marks: &mut [bool], key: u64)
    requires { length marks.old ≡ mark_count }
    ensures { marks.new ≡ set marks.old (mark_place key) true }
{
    let place = mark_place(key);
    marks[place] = true;
}

// Whether the number is among the first `count`, of which each is marked.
pub fn used_of_marked(keys: &[u64], count: usize, marks: &[bool], key: u64) -> bool
    requires { (count ≤ length keys.now) × Marked marks.now (take count keys.now) }
    ensures { result ≡ key_used key (take count keys.now) }
{
    marks[mark_place(key)] && used(keys, count, key)
}
