// The calls of `cundarivo::chart_numbers`.
ghost use Rattle.std.specs.Prelude.{◌≡◌, length};
ghost use Rattle.limits.specs.Limits.{total};
ghost use Rattle.lent.specs.Filled.{filled};
ghost use Rattle.channel.specs.Channel.{channel_types};
ghost use Rattle.export_chart.specs.Clauses.{chart_answer, panel_given, panel_answer};

use channel::Code;
use export_chart::{MarkAnswer, PanelAnswer};
use export_figures::FiguresGiven;

#[unsafe(no_mangle)]
pub extern "C" fn cundarivo_chart(
    figures: FiguresGiven,
    codes: &[Code],
    scaled_centre: &[i64],
    horizontal: usize,
    vertical: usize,
) -> MarkAnswer
    ensures { result ≡ chart_answer total channel_types figures codes.now scaled_centre.now horizontal vertical }
{
    cundarivo::chart_numbers::cundarivo_chart(figures, codes, scaled_centre, horizontal, vertical)
}

#[unsafe(no_mangle)]
pub extern "C" fn cundarivo_panel(
    figures: FiguresGiven,
    codes: &[Code],
    scaled_centre: &[i64],
    steps: &mut [i32],
) -> PanelAnswer
    ensures answer { result ≡ panel_answer (panel_given total channel_types figures codes.now scaled_centre.now) figures.n
        (length steps.old) }
    ensures steps_filled { steps.new ≡ filled result.number figures.n
        (panel_given total channel_types figures codes.now scaled_centre.now).steps steps.old }
{
    cundarivo::chart_numbers::cundarivo_panel(figures, codes, scaled_centre, steps)
}
