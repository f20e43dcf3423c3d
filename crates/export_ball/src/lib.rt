// The drawing and the check for C and Rust, on rows in a lent slice. X and the weights are written to slices of the caller's.
#![tactic(auto)]

ghost use Rattle.std.specs.Prelude.{◌≡◌, leb, length};
ghost use Rattle.refusal.specs.Outcome.{number_of, outcome_of};
ghost use Rattle.limits.specs.Limits.{total, row_limit};
ghost use Rattle.lent.specs.Filled.{filled};
ghost use Rattle.drawing.specs.Draw.{drawing};
ghost use Rattle.checking.specs.Check.{checking, checked_outcome};
ghost use Rattle.export_ball.specs.Clauses.{check_in_numbers, draw_answer, check_answer};

use ball::Ball;
use export_answers::{EnvelopeAnswer, hand_out};
use lent::fill;
use refusal::{Kind, Refusal};

// What a check answers: number 0 where accepted, else the refusal's number and line, every other figure being 0. `settled` is 1 for
// Settled, else 0.
#[repr(C)]
#[derive(Clone, Copy)]
pub struct CheckAnswer {
    pub number: u32,
    pub line: u32,
    pub settled: u32,
    pub scaled_squared_radius: u64,
    pub scaled_lower_bound: u64,
}

impl From<Result<Ball, Refusal>> for CheckAnswer {
    ghost from_gives = { λ k a. a ≡ check_in_numbers (outcome_of k) (checked_outcome k) };

    fn from(checked: Result<Ball, Refusal>) -> CheckAnswer {
        match checked {
            Ok(ball) => CheckAnswer {
                number: 0,
                line: 0,
                settled: ball.settled as u32,
                scaled_squared_radius: ball.scaled_squared_radius,
                scaled_lower_bound: ball.scaled_lower_bound,
            },
            Err(refusal) => CheckAnswer {
                number: refusal.number(),
                line: refusal.line,
                settled: 0,
                scaled_squared_radius: 0,
                scaled_lower_bound: 0,
            },
        }
    }
}

// The drawing of the first m rows of n channels with a budget of moves. It fills the first n places of `scaled_centre` with X and
// the first m places of `weights` where accepted, and writes nothing else. Refused: 8, 9, then 13.
pub fn draw(
    rows: &[i32],
    m: usize,
    n: usize,
    budget: u32,
    scaled_centre: &mut [i64],
    weights: &mut [u32],
) -> EnvelopeAnswer
    ensures answer { result ≡ draw_answer (drawing total row_limit rows.now m n budget) m n
        (length scaled_centre.old) (length weights.old) }
    ensures centre_filled { scaled_centre.new ≡ filled result.number n
        (drawing total row_limit rows.now m n budget).ball.scaled_centre scaled_centre.old }
    ensures weights_filled { weights.new ≡ filled result.number m
        (drawing total row_limit rows.now m n budget).weights weights.old }
{
    match drawing::draw(rows, m, n, budget) {
        Ok(drawing) => hand_out(
            Ok(()),
            drawing.ball,
            drawing.moves,
            &drawing.weights,
            m,
            n,
            scaled_centre,
            weights,
        ),
        Err(refusal) => refusal.into(),
    }
}

// The check, with X in the first n places of `scaled_centre` where it is accepted. Refused: 8, 12, then 13.
fn check_into(
    rows: &[i32],
    m: usize,
    n: usize,
    weights: &[u32],
    scaled_centre: &mut [i64],
) -> Result<Ball, Refusal>
    ensures answer { check_in_numbers (outcome_of result) (checked_outcome result) ≡ check_answer (checking total row_limit rows.now m n weights.now) n
        (length scaled_centre.old) }
    ensures centre_filled { scaled_centre.new ≡ filled (number_of (outcome_of result)) n
        (checking total row_limit rows.now m n weights.now).ball.scaled_centre scaled_centre.old }
{
    let ball = checking::check(rows, m, n, weights)?;
    let fits = n <= scaled_centre.len();
    if !fits {
        return Err(Kind::BufferShort.into());
    }
    fill(scaled_centre, &ball.scaled_centre, n);
    Ok(ball)
}

// The figures of the weights that the caller lends. It fills the first n places of `scaled_centre` with X where accepted, and
// writes nothing else. Refused: 8, 12, then 13.
pub fn check(
    rows: &[i32],
    m: usize,
    n: usize,
    weights: &[u32],
    scaled_centre: &mut [i64],
) -> CheckAnswer
    ensures answer { result ≡ check_answer (checking total row_limit rows.now m n weights.now) n
        (length scaled_centre.old) }
    ensures centre_filled { scaled_centre.new ≡ filled result.number n
        (checking total row_limit rows.now m n weights.now).ball.scaled_centre scaled_centre.old }
{
    check_into(rows, m, n, weights, scaled_centre).into()
}
