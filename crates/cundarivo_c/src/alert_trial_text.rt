// The calls of `cundarivo::alert_trial_text`.
ghost use Rattle.std.specs.Prelude.{◌≡◌, length};
ghost use Rattle.limits.specs.Limits.{total};
ghost use Rattle.lent.specs.Filled.{filled};
ghost use Rattle.channel.specs.Channel.{channel_types};
ghost use Rattle.alert_trial.specs.Clauses.{trial_text, trial_written};
ghost use Rattle.export_answers.specs.Clauses.{written_in_numbers};
ghost use Rattle.export_alerts.specs.Clauses.{trial_given};

use channel::Code;
use export_answers::WrittenAnswer;
use export_figures::FiguresGiven;

#[unsafe(no_mangle)]
pub extern "C" fn cundarivo_try_settings(
    figures: FiguresGiven,
    codes: &[Code],
    scaled_centre: &[i64],
    settings: &[u32],
    readings: &[u8],
    output: &mut [u8],
) -> WrittenAnswer
    ensures answer { result ≡ written_in_numbers (trial_written
        (trial_given total channel_types figures codes.now scaled_centre.now settings.now readings.now)
        (length output.old)) }
    ensures output_filled { output.new ≡ filled result.number result.length
        (trial_text
        (trial_given total channel_types figures codes.now scaled_centre.now settings.now readings.now))
        output.old }
{
    cundarivo::alert_trial_text::cundarivo_try_settings(
        figures,
        codes,
        scaled_centre,
        settings,
        readings,
        output,
    )
}
