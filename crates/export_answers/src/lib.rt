// The answers that several calls for C and Rust share: small structs of numbers. X and the weights are written to slices of the
// caller's, so that these structs stay as they are where the row limit changes.
#![tactic(auto)]

ghost use Rattle.std.specs.Prelude.{◌≤◌, ◌≡◌, ◌&&◌, leb, length};
ghost use Rattle.refusal.specs.Outcome.{number_of, outcome_of, refusal_outcome};
ghost use Rattle.limits.specs.Limits.{channel_limit};
ghost use Rattle.lent.specs.Clauses.{with_room, text_outcome};
ghost use Rattle.lent.specs.Filled.{filled};
ghost use Rattle.ball.specs.Ball.{empty_ball};
ghost use Rattle.export_answers.specs.Clauses.{envelope_in_numbers, written_in_numbers};

use ball::Ball;
use lent::fill;
use refusal::{Kind, Refusal};

// What a drawing or a record that is read answers: number 0 where accepted, else the refusal's number and line, every other figure
// being 0. `settled` is 1 for Settled, else 0.
#[repr(C)]
#[derive(Clone, Copy)]
pub struct EnvelopeAnswer {
    pub number: u32,
    pub line: u32,
    pub settled: u32,
    pub moves: u32,
    pub scaled_squared_radius: u64,
    pub scaled_lower_bound: u64,
}

// What writing a record, or the output of a program, answers: number 0 where accepted, else the refusal's number and line, the length being 0.
#[repr(C)]
#[derive(Clone, Copy)]
pub struct WrittenAnswer {
    pub number: u32,
    pub line: u32,
    pub length: usize,
}

// A refusal: every other figure is 0.
impl From<Refusal> for EnvelopeAnswer {
    ghost from_gives = { λ r a. a ≡ envelope_in_numbers (refusal_outcome r) empty_ball 0 };

    fn from(refusal: Refusal) -> EnvelopeAnswer {
        EnvelopeAnswer {
            number: refusal.number(),
            line: refusal.line,
            settled: 0,
            moves: 0,
            scaled_squared_radius: 0,
            scaled_lower_bound: 0,
        }
    }
}

impl From<Result<usize, Refusal>> for WrittenAnswer {
    ghost from_gives = { λ w a. a ≡ written_in_numbers (text_outcome w) };

    fn from(written: Result<usize, Refusal>) -> WrittenAnswer {
        match written {
            Ok(length) => WrittenAnswer {
                number: 0,
                line: 0,
                length,
            },
            Err(refusal) => WrittenAnswer {
                number: refusal.number(),
                line: refusal.line,
                length: 0,
            },
        }
    }
}

// Whether X fits its lent places and the weights fit theirs.
fn both_fit(n: usize, centre_places: usize, m: usize, weights_places: usize) -> bool
    ensures { result ≡ (leb n centre_places && leb m weights_places) }
{
    n <= centre_places && m <= weights_places
}

// Hands out a drawing or a record. It fills the first n places of `scaled_centre` with X and the first m places of `weights` where
// accepted and both fit, and writes nothing else. Refused: as answered, then 13.
pub fn hand_out(
    answered: Result<(), Refusal>,
    ball: Ball,
    moves: u32,
    drawn: &[u32],
    m: usize,
    n: usize,
    scaled_centre: &mut [i64],
    weights: &mut [u32],
) -> EnvelopeAnswer
    requires { number_of (outcome_of answered) ≡ 0 → (n ≤ channel_limit) × (m ≤ length drawn.now) }
    ensures answer { result ≡ envelope_in_numbers
        (with_room (leb n (length scaled_centre.old) && leb m (length weights.old)) (outcome_of answered)) ball moves }
    ensures centre_filled { scaled_centre.new ≡ filled result.number n ball.scaled_centre scaled_centre.old }
    ensures weights_filled { weights.new ≡ filled result.number m drawn.now weights.old }
{
    if let Err(refusal) = answered {
        return EnvelopeAnswer::from(refusal);
    }
    if !both_fit(n, scaled_centre.len(), m, weights.len()) {
        return EnvelopeAnswer::from(Refusal::new(Kind::BufferShort, 0));
    }
    fill(scaled_centre, &ball.scaled_centre, n);
    fill(weights, drawn, m);
    EnvelopeAnswer {
        number: 0,
        line: 0,
        settled: ball.settled as u32,
        moves,
        scaled_squared_radius: ball.scaled_squared_radius,
        scaled_lower_bound: ball.scaled_lower_bound,
    }
}
