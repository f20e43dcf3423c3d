// The trial of alert settings on readings for C and Rust: the figures of an envelope are given in numbers, its codes and X in lent slices.
#![tactic(auto)]

ghost use Rattle.std.specs.Prelude.{◌≡◌, length};
ghost use Rattle.refusal.specs.Outcome.{number_of};
ghost use Rattle.limits.specs.Limits.{total};
ghost use Rattle.lent.specs.Clauses.{text_outcome};
ghost use Rattle.lent.specs.Filled.{filled};
ghost use Rattle.channel.specs.Channel.{channel_types};
ghost use Rattle.alert_trial.specs.Clauses.{trial_text, trial_written};
ghost use Rattle.export_answers.specs.Clauses.{written_in_numbers};
ghost use Rattle.export_alerts.specs.Clauses.{trial_given};

use channel::Code;
use export_answers::WrittenAnswer;
use export_figures::FiguresGiven;
use refusal::{Kind, Refusal};
use try_settings::try_settings_lent;

// The trial against the figures that are given.
fn trial_given(
    figures: FiguresGiven,
    codes: &[Code],
    scaled_centre: &[i64],
    settings: &[u32],
    readings: &[u8],
    output: &mut [u8],
) -> Result<usize, Refusal>
    ensures answer { text_outcome result ≡ trial_written
        (trial_given total channel_types figures codes.now scaled_centre.now settings.now readings.now)
        (length output.old) }
    ensures output_filled { output.new ≡ filled (number_of (text_outcome result).outcome) (text_outcome result).length
        (trial_text
        (trial_given total channel_types figures codes.now scaled_centre.now settings.now readings.now))
        output.old }
{
    if !figures.ending_known() {
        return Err(Kind::OutsideLimits.into());
    }
    try_settings_lent(
        figures.scalars(),
        codes,
        scaled_centre,
        settings,
        readings,
        output,
    )
}

// Tries settings, one list of numbers k, c, k, c, on readings against the figures of an envelope. Of `codes` and `scaled_centre` the first
// n places count; fewer are refused by 8, and so is an ending that is neither 0 nor 1. Where the text fits, it fills the first `length`
// places of `output` and no other. Refused, with `output` as it was: 8, 14, 1, last 13.
pub fn try_settings(
    figures: FiguresGiven,
    codes: &[Code],
    scaled_centre: &[i64],
    settings: &[u32],
    readings: &[u8],
    output: &mut [u8],
) -> WrittenAnswer
    ensures answer { result ≡ written_in_numbers (trial_written
        (trial_given total channel_types figures codes.now scaled_centre.now settings.now readings.now)
        (length output.old)) }
    ensures output_filled { output.new ≡ filled result.number result.length
        (trial_text
        (trial_given total channel_types figures codes.now scaled_centre.now settings.now readings.now))
        output.old }
{
    trial_given(figures, codes, scaled_centre, settings, readings, output).into()
}
