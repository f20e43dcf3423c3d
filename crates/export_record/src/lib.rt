// Records for C and Rust: an envelope is given in numbers, its codes, X and weights in lent slices.
#![tactic(auto)]

ghost use Rattle.std.specs.Prelude.{◌≤◌, ◌≡◌, pos, length, replicate};
ghost use Rattle.limits.specs.Limits.{total, row_limit, channel_limit};
ghost use Rattle.lent.specs.Filled.{filled};
ghost use Rattle.channel.specs.Channel.{channel_types};
ghost use Rattle.record_print.specs.Printed.{record_text};
ghost use Rattle.record_read.specs.Clauses.{record_read};
ghost use Rattle.export_record.specs.Clauses.{envelope_whole, FiguresPlaces, figures_kept, envelope_given, read_answer, write_answer};

use ball::Ball;
use channel::Code;
use envelope::{Envelope, Figures, places_lent};
use export_answers::{EnvelopeAnswer, WrittenAnswer, hand_out};
use export_figures::FiguresGiven;
use lent::fill;
use limits::{CHANNELS, ROWS};
use refusal::{Kind, Refusal};

// Reads a record against the first m rows of n channels and the first n codes. It fills the first n places of `scaled_centre`
// with X and the first m places of `weights` where accepted, and writes nothing else. Refused: 8, 1, 11, 12, then 13.
pub fn read(
    rows: &[i32],
    m: usize,
    n: usize,
    codes: &[Code],
    text: &[u8],
    scaled_centre: &mut [i64],
    weights: &mut [u32],
) -> EnvelopeAnswer
    ensures answer { result ≡ read_answer (record_read total row_limit channel_types rows.now m n codes.now text.now) m n
        (length scaled_centre.old) (length weights.old) }
    ensures centre_filled { scaled_centre.new ≡ filled result.number n
        (record_read total row_limit channel_types rows.now m n codes.now text.now).envelope.figures.ball.scaled_centre scaled_centre.old }
    ensures weights_filled { weights.new ≡ filled result.number m
        (record_read total row_limit channel_types rows.now m n codes.now text.now).envelope.weights
        weights.old }
{
    match record_read::read(rows, m, n, codes, text) {
        Ok(envelope) => hand_out(
            Ok(()),
            envelope.figures.ball,
            envelope.figures.moves,
            &envelope.weights,
            m,
            n,
            scaled_centre,
            weights,
        ),
        Err(refusal) => refusal.into(),
    }
}

// Whether the ending is one of the two, n is within its limit with as many codes and places of X lent, and the weights are those of m
// rows or more, within the row limit.
fn envelope_whole(
    given: FiguresGiven,
    codes: &[Code],
    scaled_centre: &[i64],
    weights: &[u32],
    m: usize,
) -> bool
    ensures { result ≡ envelope_whole row_limit given codes.now scaled_centre.now weights.now m }
{
    given.ending_known()
        && given.n <= CHANNELS
        && places_lent(given.n, codes, scaled_centre)
        && m <= weights.len()
        && weights.len() <= ROWS
}

// The first n places of X, those past n being 0. The loop is one over all places that ends early, so that the compiler unrolls it: a
// copy of n places is a call of `memcpy`, which costs more than they do.
fn centre_kept(scaled_centre: &[i64], n: usize) -> [i64; CHANNELS]
    requires { (n ≤ channel_limit) × (n ≤ length scaled_centre.now) }
    ensures { result ≡ filled 0 n scaled_centre.now (replicate channel_limit (pos 0)) }
{
    let mut kept = [0i64; CHANNELS];
    for channel in 0..CHANNELS {
        if n <= channel {
            return kept;
        }
        kept[channel] = scaled_centre[channel];
    }
    kept
}

// The figures that are given as one value; places past n are 0.
fn figures_kept(given: FiguresGiven, codes: &[Code], scaled_centre: &[i64]) -> Figures
    requires { FiguresPlaces given.n codes.now scaled_centre.now }
    ensures { result ≡ figures_kept given codes.now scaled_centre.now }
{
    let scalars = given.scalars();
    let mut kept_codes = [0 as Code; CHANNELS];
    fill(&mut kept_codes, codes, given.n);
    let kept_centre = centre_kept(scaled_centre, given.n);
    let ball = Ball {
        scaled_centre: kept_centre,
        scaled_squared_radius: scalars.scaled_squared_radius,
        scaled_lower_bound: scalars.scaled_lower_bound,
        settled: scalars.settled,
    };
    Figures::new(given.n, kept_codes, ball, scalars.moves)
}

// The envelope that is given; weights past those that are lent are 0.
fn envelope_given(
    given: FiguresGiven,
    codes: &[Code],
    scaled_centre: &[i64],
    weights: &[u32],
) -> Envelope
    requires { FiguresPlaces given.n codes.now scaled_centre.now × (length weights.now ≤ row_limit) }
    ensures { result ≡ envelope_given row_limit given codes.now scaled_centre.now weights.now }
{
    let figures = figures_kept(given, codes, scaled_centre);
    let mut kept = [0u32; ROWS];
    fill(&mut kept, weights, weights.len());
    Envelope {
        figures,
        weights: kept,
    }
}

// Writes the record of an envelope, drawn from the first m rows, to the first places of the buffer, and to no other. Of `codes` and
// `scaled_centre` the first n places count. `weights` has m places or more, up to the row limit; a weight that is not lent is 0.
// Fewer or more places are refused by 8, and so is an ending that is neither 0 nor 1. Refused, with the buffer as it was: 8, 12, 13.
pub fn write(
    figures: FiguresGiven,
    codes: &[Code],
    scaled_centre: &[i64],
    weights: &[u32],
    rows: &[i32],
    m: usize,
    buffer: &mut [u8],
) -> WrittenAnswer
    ensures answer { result ≡ write_answer total row_limit channel_types figures codes.now scaled_centre.now weights.now
        rows.now m (length buffer.old) }
    ensures buffer_filled { buffer.new ≡ filled result.number result.length
        (record_text channel_types (envelope_given row_limit figures codes.now scaled_centre.now weights.now))
        buffer.old }
{
    if !envelope_whole(figures, codes, scaled_centre, weights, m) {
        let refused: Result<usize, Refusal> = Err(Refusal::new(Kind::OutsideLimits, 0));
        return refused.into();
    }
    let envelope = envelope_given(figures, codes, scaled_centre, weights);
    let written = record_write::write(envelope, rows, m, buffer);
    written.into()
}
