// The verdict on a reading and what is measured of it, for C and Rust.
ghost use Rattle.std.specs.Prelude.{◌≡◌, length};
ghost use Rattle.limits.specs.Limits.{total};
ghost use Rattle.lent.specs.Filled.{filled};
ghost use Rattle.channel.specs.Channel.{channel_types};
ghost use Rattle.measured_reading.specs.Measured.{measure_answer};
ghost use Rattle.export_reading.specs.Clauses.{judge_answer, measured_in_numbers, measured_given};

use channel::Code;
use export_figures::FiguresGiven;
use export_reading::{MeasuredAnswer, VerdictAnswer};

// The verdict on a text against the figures of an envelope. Of `codes` and `scaled_centre` the first n places count; fewer are
// refused by 8, and so is an ending that is neither 0 nor 1. Refused: 8, 1, 3, the leftmost 10, the leftmost 4.
pub fn cundarivo_judge(
    figures: FiguresGiven,
    codes: &[Code],
    scaled_centre: &[i64],
    text: &[u8],
) -> VerdictAnswer
    ensures { result ≡ judge_answer total channel_types figures codes.now scaled_centre.now text.now }
{
    export_reading::judge(figures, codes, scaled_centre, text)
}

// The same with s, and with the values as they read: it fills the first n places of `values` where accepted, and writes nothing else.
// Refused as above, then 13.
pub fn cundarivo_measure(
    figures: FiguresGiven,
    codes: &[Code],
    scaled_centre: &[i64],
    text: &[u8],
    values: &mut [i32],
) -> MeasuredAnswer
    ensures answer { result ≡ measured_in_numbers (measure_answer
        (measured_given total channel_types figures codes.now scaled_centre.now text.now)
        (length values.old)) }
    ensures values_filled { values.new ≡ filled result.number figures.n
        (measured_given total channel_types figures codes.now scaled_centre.now text.now).values
        values.old }
{
    export_reading::measure(figures, codes, scaled_centre, text, values)
}
