// The figures of an envelope as C and Rust give them: numbers, with the codes and X in lent slices beside them. Each call on them
// tests the ending first, else it answers 8.
#![tactic(auto)]

ghost use Rattle.std.specs.Prelude.{◌≡◌};
ghost use Rattle.export_figures.specs.Clauses.{ending_known, scalars_given};

use envelope::Scalars;

// An envelope's n, M, L, ending (1 for Settled, 0 for Budget) and moves.
#[repr(C)]
#[derive(Clone, Copy)]
pub struct FiguresGiven {
    pub n: usize,
    pub scaled_squared_radius: u64,
    pub scaled_lower_bound: u64,
    pub settled: u32,
    pub moves: u32,
}

impl FiguresGiven {
    // Whether the ending is one of the two.
    pub fn ending_known(self) -> bool
        ensures { result ≡ ending_known self }
    {
        self.settled <= 1
    }

    // The single numbers that are given.
    pub fn scalars(self) -> Scalars
        ensures { result ≡ scalars_given self }
    {
        Scalars {
            n: self.n,
            scaled_squared_radius: self.scaled_squared_radius,
            scaled_lower_bound: self.scaled_lower_bound,
            settled: self.settled == 1,
            moves: self.moves,
        }
    }
}
