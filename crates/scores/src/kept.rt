// The columns that are kept from move to move: slots of one place for each row, with the row whose column a slot holds beside it. A row's
// column is looked for in the slot that it was put into last, and computed anew where that slot holds another's.
ghost use Rattle.std.specs.Prelude.{◌<◌, ◌≡◌, ◌≤◌, ℕ, List, ℤ};
ghost use Rattle.limits.specs.Limits.{row_limit};
ghost use Rattle.geometry.specs.Clauses.{Table};
ghost use Rattle.scores.specs.Clauses.{column_limit, slot_beside, KeptFor, ColumnKept};

use crate::column::fill_column;
use limits::ROWS;

// the most columns that are kept
pub const COLUMNS: usize = 32;

// the places of all of them
pub const COLUMN_PLACES: usize = COLUMNS * ROWS;

// The slots, the row that each of them names, the slot that is remembered for each row, and the slot that is filled next.
#[derive(Drop)]
pub struct KeptColumns {
    pub(crate) columns: [u32; COLUMN_PLACES],
    pub(crate) kept: [usize; COLUMNS],
    pub(crate) slots: [usize; ROWS],
    pub(crate) next: usize,
}

// The slot that is filled next where that of a column in use is passed over.
pub fn slot_beside(next: usize, slot: usize) -> usize
    requires { next < column_limit }
    ensures { result ≡ slot_beside next slot }
{
    if next == slot {
        (next + 1) % COLUMNS
    } else {
        next
    }
}

impl KeptColumns {
    // No column is kept: each slot names a row past the last.
    pub fn new() -> KeptColumns
        ensures { (rows : List ℤ) (m n : ℕ) → m ≤ row_limit → KeptFor rows m n result }
    {
        KeptColumns {
            columns: [0u32; COLUMN_PLACES],
            kept: [ROWS; COLUMNS],
            slots: [0usize; ROWS],
            next: 0,
        }
    }

    // The slot that holds the column of row j, which is put into the slot that is filled next where it is not kept. The slots are filled in turn.
    pub fn keep(&mut self, rows: &[i32], m: usize, n: usize, j: usize) -> usize
        requires { Table rows.now m n × ((j < m) × KeptFor rows.now m n self.old) }
        ensures { ColumnKept rows.now m n j self.old self.new result }
    {
        let slot = self.slots[j];
        if slot < COLUMNS && self.kept[slot] == j {
            return slot;
        }
        let next = self.next;
        fill_column(rows, m, n, j, &mut self.columns, next * ROWS);
        self.kept[next] = j;
        self.slots[j] = next;
        self.next = (next + 1) % COLUMNS;
        next
    }
}
