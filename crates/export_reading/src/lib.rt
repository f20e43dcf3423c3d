// The verdict on a reading and what is measured of it, for C and Rust: the figures of an envelope are given in numbers, its codes and X in lent slices.
#![tactic(auto)]

ghost use Rattle.std.specs.Prelude.{◌≡◌, length};
ghost use Rattle.refusal.specs.Number.{outside_limits};
ghost use Rattle.limits.specs.Limits.{total};
ghost use Rattle.lent.specs.Filled.{filled};
ghost use Rattle.channel.specs.Channel.{channel_types};
ghost use Rattle.reading.specs.Verdict.{verdict_outcome, verdict_number, refused_verdict, judged};
ghost use Rattle.measured_reading.specs.Measured.{measured_outcome, measure_answer};
ghost use Rattle.export_figures.specs.Clauses.{answer_given};
ghost use Rattle.export_reading.specs.Clauses.{verdict_in_numbers, judge_answer, measured_in_numbers, measured_given};

use channel::Code;
use export_figures::FiguresGiven;
use measured_reading::{Measured, measure_lent};
use reading::{Verdict, judge_lent};
use refusal::{Kind, Refusal};

// the verdicts as numbers; 0 is none of them
const QUIET: u32 = 1;

const ALARM: u32 = 2;

// What a reading answers: number 0 where accepted, else the refusal's number and line, the others being 0. `verdict` is 1 for
// Quiet and 2 for Alarm, whose excess is s - M.
#[repr(C)]
#[derive(Clone, Copy)]
pub struct VerdictAnswer {
    pub number: u32,
    pub line: u32,
    pub verdict: u32,
    pub excess: u64,
}

// What a measured reading answers: as a verdict does, and s, which is 0 in a refusal.
#[repr(C)]
#[derive(Clone, Copy)]
pub struct MeasuredAnswer {
    pub number: u32,
    pub line: u32,
    pub verdict: u32,
    pub excess: u64,
    pub scaled_squared_distance: u64,
}

impl From<Result<Verdict, Refusal>> for VerdictAnswer {
    ghost from_gives = { λ verdict answer. answer ≡ verdict_in_numbers (verdict_outcome verdict) };

    fn from(verdict: Result<Verdict, Refusal>) -> VerdictAnswer {
        match verdict {
            Ok(Verdict::Quiet) => VerdictAnswer {
                number: 0,
                line: 0,
                verdict: QUIET,
                excess: 0,
            },
            Ok(Verdict::Alarm(excess)) => VerdictAnswer {
                number: 0,
                line: 0,
                verdict: ALARM,
                excess,
            },
            Err(refusal) => VerdictAnswer {
                number: refusal.number(),
                line: refusal.line,
                verdict: 0,
                excess: 0,
            },
        }
    }
}

impl From<Result<Measured, Refusal>> for MeasuredAnswer {
    ghost from_gives = { λ measured answer. answer ≡ measured_in_numbers (measured_outcome measured) };

    fn from(measured: Result<Measured, Refusal>) -> MeasuredAnswer {
        let (verdict, scaled_squared_distance) = match measured {
            Ok(measured) => (Ok(measured.verdict), measured.scaled_squared_distance),
            Err(refusal) => (Err(refusal), 0),
        };
        let answer = VerdictAnswer::from(verdict);
        MeasuredAnswer {
            number: answer.number,
            line: answer.line,
            verdict: answer.verdict,
            excess: answer.excess,
            scaled_squared_distance,
        }
    }
}

// The verdict against the figures that are given.
fn judge_given(
    figures: FiguresGiven,
    codes: &[Code],
    scaled_centre: &[i64],
    text: &[u8],
) -> Result<Verdict, Refusal>
    ensures { verdict_outcome result ≡ answer_given (λ f. judged total channel_types f text.now) (refused_verdict outside_limits 0)
        figures codes.now scaled_centre.now }
{
    if !figures.ending_known() {
        return Err(Kind::OutsideLimits.into());
    }
    let scalars = figures.scalars();
    judge_lent(
        scalars.n,
        scalars.scaled_squared_radius,
        scalars.scaled_lower_bound,
        scalars.settled,
        scalars.moves,
        codes,
        scaled_centre,
        text,
    )
}

// The verdict on a text against the figures of an envelope. Of `codes` and `scaled_centre` the first n places count; fewer are
// refused by 8, and so is an ending that is neither 0 nor 1. Refused: 8, 1, 3, the leftmost 10, the leftmost 4.
pub fn judge(
    figures: FiguresGiven,
    codes: &[Code],
    scaled_centre: &[i64],
    text: &[u8],
) -> VerdictAnswer
    ensures { result ≡ judge_answer total channel_types figures codes.now scaled_centre.now text.now }
{
    judge_given(figures, codes, scaled_centre, text).into()
}

// What is measured against the figures that are given.
fn measure_given(
    figures: FiguresGiven,
    codes: &[Code],
    scaled_centre: &[i64],
    text: &[u8],
    values: &mut [i32],
) -> Result<Measured, Refusal>
    ensures answer { measured_outcome result ≡ measure_answer
        (measured_given total channel_types figures codes.now scaled_centre.now text.now)
        (length values.old) }
    ensures values_filled { values.new ≡ filled (verdict_number (measured_outcome result).verdict) figures.n
        (measured_given total channel_types figures codes.now scaled_centre.now text.now).values
        values.old }
{
    if figures.ending_known() {
        measure_lent(figures.scalars(), codes, scaled_centre, text, values)
    } else {
        Err(Kind::OutsideLimits.into())
    }
}

// The same with s, and with the values as they read: it fills the first n places of `values` where accepted, and writes nothing else.
// Refused as above, then 13.
pub fn measure(
    figures: FiguresGiven,
    codes: &[Code],
    scaled_centre: &[i64],
    text: &[u8],
    values: &mut [i32],
) -> MeasuredAnswer
    ensures answer { result ≡ measured_in_numbers (measure_answer
        (measured_given total channel_types figures codes.now scaled_centre.now text.now)
        (length values.old)) }
    ensures values_filled { values.new ≡ filled result.number figures.n
        (measured_given total channel_types figures codes.now scaled_centre.now text.now).values
        values.old }
{
    measure_given(figures, codes, scaled_centre, text, values).into()
}
