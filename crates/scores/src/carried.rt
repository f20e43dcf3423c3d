// e of the rows, which is carried from move to move.
ghost use Rattle.limits.specs.Limits.{total};
ghost use Rattle.scores.specs.Clauses.{KeptFor, Raisable, Raised, Carriable, Carried};

use crate::column::{add_column, move_columns};
use crate::kept::{KeptColumns, slot_beside};
use limits::{ROWS, TOTAL};

impl KeptColumns {
    // e of each row under all weight on the first row, from scores that are 0.
    pub fn first_scores(&mut self, rows: &[i32], m: usize, n: usize, scores: &mut [u64])
        requires { Raisable rows.now m n 0 total scores.old × KeptFor rows.now m n self.old }
        ensures scores { Raised rows.now m n 0 total scores.old scores.new }
        ensures columns { KeptFor rows.now m n self.new }
    {
        let slot = self.keep(rows, m, n, 0);
        add_column(scores, m, &self.columns, slot * ROWS, TOTAL);
    }

    // e of each row after t has moved from one row to another: t times the column of the row that gains it is added, and that of the row that loses it taken off.
    pub fn carry_scores(
        &mut self,
        rows: &[i32],
        m: usize,
        n: usize,
        from: usize,
        to: usize,
        t: u32,
        scores: &mut [u64],
    )
        requires { Carriable rows.now m n from to t scores.old × KeptFor rows.now m n self.old }
        ensures scores { Carried rows.now m n from to t scores.old scores.new }
        ensures columns { KeptFor rows.now m n self.new }
    {
        let gained = self.keep(rows, m, n, to);
        self.next = slot_beside(self.next, gained);
        let lost = self.keep(rows, m, n, from);
        move_columns(scores, m, &self.columns, gained * ROWS, lost * ROWS, t);
    }
}
