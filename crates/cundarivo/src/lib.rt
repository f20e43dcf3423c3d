// The calls for C and Rust, on numbers, lent slices and small structs of numbers: each is the call of its area. `cundarivo_c` exports each by
// its name once more, since no crate can cite a static library.
#![tactic(auto)]

pub mod alert_trial_text;
pub mod chart_numbers;
pub mod programs;
pub mod reading_text;
pub mod record_text;
pub mod reference_text;

ghost use Rattle.std.specs.Prelude.{◌≡◌, length};
ghost use Rattle.limits.specs.Limits.{total, row_limit};
ghost use Rattle.lent.specs.Filled.{filled};
ghost use Rattle.drawing.specs.Draw.{drawing};
ghost use Rattle.checking.specs.Check.{checking};
ghost use Rattle.export_ball.specs.Clauses.{draw_answer, check_answer};

use export_answers::EnvelopeAnswer;
use export_ball::CheckAnswer;

// The drawing of the first m rows of n channels with a budget of moves. It fills the first n places of `scaled_centre` with X and
// the first m places of `weights` where accepted, and writes nothing else. Refused: 8, 9, then 13.
pub fn cundarivo_draw(
    rows: &[i32],
    m: usize,
    n: usize,
    budget: u32,
    scaled_centre: &mut [i64],
    weights: &mut [u32],
) -> EnvelopeAnswer
    ensures answer { result ≡ draw_answer (drawing total row_limit rows.now m n budget) m n
        (length scaled_centre.old) (length weights.old) }
    ensures centre_filled { scaled_centre.new ≡ filled result.number n
        (drawing total row_limit rows.now m n budget).ball.scaled_centre scaled_centre.old }
    ensures weights_filled { weights.new ≡ filled result.number m
        (drawing total row_limit rows.now m n budget).weights weights.old }
{
    export_ball::draw(rows, m, n, budget, scaled_centre, weights)
}

// The figures of the weights that the caller lends. It fills the first n places of `scaled_centre` with X where accepted, and
// writes nothing else. Refused: 8, 12, then 13.
pub fn cundarivo_check(
    rows: &[i32],
    m: usize,
    n: usize,
    weights: &[u32],
    scaled_centre: &mut [i64],
) -> CheckAnswer
    ensures answer { result ≡ check_answer (checking total row_limit rows.now m n weights.now) n
        (length scaled_centre.old) }
    ensures centre_filled { scaled_centre.new ≡ filled result.number n
        (checking total row_limit rows.now m n weights.now).ball.scaled_centre scaled_centre.old }
{
    export_ball::check(rows, m, n, weights, scaled_centre)
}
