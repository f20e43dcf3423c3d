// The calls of `cundarivo::reading_text`.
ghost use Rattle.std.specs.Prelude.{◌≡◌, length};
ghost use Rattle.limits.specs.Limits.{total};
ghost use Rattle.lent.specs.Filled.{filled};
ghost use Rattle.channel.specs.Channel.{channel_types};
ghost use Rattle.measured_reading.specs.Measured.{measure_answer};
ghost use Rattle.export_reading.specs.Clauses.{judge_answer, measured_in_numbers, measured_given};

use channel::Code;
use export_figures::FiguresGiven;
use export_reading::{MeasuredAnswer, VerdictAnswer};

#[unsafe(no_mangle)]
pub extern "C" fn cundarivo_judge(
    figures: FiguresGiven,
    codes: &[Code],
    scaled_centre: &[i64],
    text: &[u8],
) -> VerdictAnswer
    ensures { result ≡ judge_answer total channel_types figures codes.now scaled_centre.now text.now }
{
    cundarivo::reading_text::cundarivo_judge(figures, codes, scaled_centre, text)
}

#[unsafe(no_mangle)]
pub extern "C" fn cundarivo_measure(
    figures: FiguresGiven,
    codes: &[Code],
    scaled_centre: &[i64],
    text: &[u8],
    values: &mut [i32],
) -> MeasuredAnswer
    ensures answer { result ≡ measured_in_numbers (measure_answer
        (measured_given total channel_types figures codes.now scaled_centre.now text.now)
        (length values.old)) }
    ensures values_filled { values.new ≡ filled result.number figures.n
        (measured_given total channel_types figures codes.now scaled_centre.now text.now).values
        values.old }
{
    cundarivo::reading_text::cundarivo_measure(figures, codes, scaled_centre, text, values)
}
