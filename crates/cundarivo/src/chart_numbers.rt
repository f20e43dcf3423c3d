// The chart and the panel for C and Rust.
ghost use Rattle.std.specs.Prelude.{◌≡◌, length};
ghost use Rattle.limits.specs.Limits.{total};
ghost use Rattle.lent.specs.Filled.{filled};
ghost use Rattle.channel.specs.Channel.{channel_types};
ghost use Rattle.export_chart.specs.Clauses.{chart_answer, panel_given, panel_answer};

use channel::Code;
use export_chart::{MarkAnswer, PanelAnswer};
use export_figures::FiguresGiven;

// The mark of an envelope on the chart of two channels counted from 1, the same one allowed. Of `codes` and `scaled_centre` the first
// n places count; fewer are refused by 8, and so is an ending that is neither 0 nor 1. Refused: 8.
pub fn cundarivo_chart(
    figures: FiguresGiven,
    codes: &[Code],
    scaled_centre: &[i64],
    horizontal: usize,
    vertical: usize,
) -> MarkAnswer
    ensures { result ≡ chart_answer total channel_types figures codes.now scaled_centre.now horizontal vertical }
{
    export_chart::chart(figures, codes, scaled_centre, horizontal, vertical)
}

// The centre of an envelope to the nearest whole step, halves away from zero. It fills the first n places of `steps` where accepted, and
// writes nothing else. Of `codes` and `scaled_centre` the first n places count; fewer are refused by 8, and so is an ending that is
// neither 0 nor 1. Refused: 8, then 13.
pub fn cundarivo_panel(
    figures: FiguresGiven,
    codes: &[Code],
    scaled_centre: &[i64],
    steps: &mut [i32],
) -> PanelAnswer
    ensures answer { result ≡ panel_answer (panel_given total channel_types figures codes.now scaled_centre.now) figures.n
        (length steps.old) }
    ensures steps_filled { steps.new ≡ filled result.number figures.n
        (panel_given total channel_types figures codes.now scaled_centre.now).steps steps.old }
{
    export_chart::panel(figures, codes, scaled_centre, steps)
}
