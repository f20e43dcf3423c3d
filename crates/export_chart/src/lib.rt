// The chart and the panel for C and Rust: the figures of an envelope are given in numbers, its codes and X in lent slices.
#![tactic(auto)]

ghost use Rattle.std.specs.Prelude.{◌≡◌, leb, length};
ghost use Rattle.limits.specs.Limits.{total};
ghost use Rattle.refusal.specs.Number.{outside_limits};
ghost use Rattle.refusal.specs.Outcome.{number_of, outcome_of};
ghost use Rattle.lent.specs.Filled.{filled};
ghost use Rattle.lent.specs.Clauses.{with_room};
ghost use Rattle.channel.specs.Channel.{channel_types};
ghost use Rattle.chart.specs.Mark.{mark_outcome, refused_mark, chart_mark};
ghost use Rattle.panel_steps.specs.Panel.{panel_outcome};
ghost use Rattle.export_figures.specs.Clauses.{answer_given};
ghost use Rattle.export_chart.specs.Clauses.{mark_in_numbers, chart_answer, panel_given, panel_answer};

use channel::Code;
use chart::{Mark, chart_lent};
use export_figures::FiguresGiven;
use lent::fill;
use limits::CHANNELS;
use panel_steps::panel_lent;
use refusal::{Kind, Refusal};

// the marks as numbers; 0 is none of them
const DOT: u32 = 1;

const DISC: u32 = 2;

// What a chart answers: number 0 where accepted, else the refusal's number and line, the others being 0. `mark` is 1 for a dot, whose
// radius is 0, and 2 for a disc.
#[repr(C)]
#[derive(Clone, Copy)]
pub struct MarkAnswer {
    pub number: u32,
    pub line: u32,
    pub mark: u32,
    pub horizontal: f64,
    pub vertical: f64,
    pub radius: f64,
}

// What a panel answers: number 0 where accepted, else the refusal's number and line.
#[repr(C)]
#[derive(Clone, Copy)]
pub struct PanelAnswer {
    pub number: u32,
    pub line: u32,
}

impl From<Result<Mark, Refusal>> for MarkAnswer {
    ghost from_gives = { λ mark answer. answer ≡ mark_in_numbers (mark_outcome mark) };

    fn from(mark: Result<Mark, Refusal>) -> MarkAnswer {
        match mark {
            Ok(Mark::Dot(point)) => MarkAnswer {
                number: 0,
                line: 0,
                mark: DOT,
                horizontal: point.horizontal,
                vertical: point.vertical,
                radius: 0.0,
            },
            Ok(Mark::Disc(point, radius)) => MarkAnswer {
                number: 0,
                line: 0,
                mark: DISC,
                horizontal: point.horizontal,
                vertical: point.vertical,
                radius,
            },
            Err(refusal) => MarkAnswer {
                number: refusal.number(),
                line: refusal.line,
                mark: 0,
                horizontal: 0.0,
                vertical: 0.0,
                radius: 0.0,
            },
        }
    }
}

// The mark of the figures that are given.
fn chart_given(
    figures: FiguresGiven,
    codes: &[Code],
    scaled_centre: &[i64],
    horizontal: usize,
    vertical: usize,
) -> Result<Mark, Refusal>
    ensures { mark_outcome result ≡ answer_given (λ f. chart_mark total channel_types f horizontal vertical) (refused_mark outside_limits)
        figures codes.now scaled_centre.now }
{
    if !figures.ending_known() {
        return Err(Kind::OutsideLimits.into());
    }
    chart_lent(
        figures.scalars(),
        codes,
        scaled_centre,
        horizontal,
        vertical,
    )
}

// The mark of an envelope on the chart of two channels counted from 1, the same one allowed. Of `codes` and `scaled_centre` the first
// n places count; fewer are refused by 8, and so is an ending that is neither 0 nor 1. Refused: 8.
pub fn chart(
    figures: FiguresGiven,
    codes: &[Code],
    scaled_centre: &[i64],
    horizontal: usize,
    vertical: usize,
) -> MarkAnswer
    ensures { result ≡ chart_answer total channel_types figures codes.now scaled_centre.now horizontal vertical }
{
    chart_given(figures, codes, scaled_centre, horizontal, vertical).into()
}

// What the panel shows of the figures that are given.
fn panel_given(
    figures: FiguresGiven,
    codes: &[Code],
    scaled_centre: &[i64],
) -> Result<[i32; CHANNELS], Refusal>
    ensures { panel_outcome result ≡ panel_given total channel_types figures codes.now scaled_centre.now }
{
    if !figures.ending_known() {
        return Err(Kind::OutsideLimits.into());
    }
    panel_lent(figures.scalars(), codes, scaled_centre)
}

// Fills the first n places of `steps`, or leaves them as they were.
fn panel_filled(
    figures: FiguresGiven,
    codes: &[Code],
    scaled_centre: &[i64],
    steps: &mut [i32],
) -> Result<(), Refusal>
    ensures outcome { outcome_of result ≡ with_room (leb figures.n (length steps.old))
        (panel_given total channel_types figures codes.now scaled_centre.now).outcome }
    ensures steps_filled { steps.new ≡ filled (number_of (outcome_of result)) figures.n
        (panel_given total channel_types figures codes.now scaled_centre.now).steps steps.old }
{
    let shown = panel_given(figures, codes, scaled_centre)?;
    let room = figures.n <= steps.len();
    if !room {
        return Err(Kind::BufferShort.into());
    }
    fill(steps, &shown, figures.n);
    Ok(())
}

// The centre of an envelope to the nearest whole step, halves away from zero. It fills the first n places of `steps` where accepted, and
// writes nothing else. Of `codes` and `scaled_centre` the first n places count; fewer are refused by 8, and so is an ending that is
// neither 0 nor 1. Refused: 8, then 13.
pub fn panel(
    figures: FiguresGiven,
    codes: &[Code],
    scaled_centre: &[i64],
    steps: &mut [i32],
) -> PanelAnswer
    ensures answer { result ≡ panel_answer (panel_given total channel_types figures codes.now scaled_centre.now) figures.n
        (length steps.old) }
    ensures steps_filled { steps.new ≡ filled result.number figures.n
        (panel_given total channel_types figures codes.now scaled_centre.now).steps steps.old }
{
    let filled = panel_filled(figures, codes, scaled_centre, steps);
    PanelAnswer {
        number: refusal::number_of(&filled),
        line: refusal::line_of(&filled),
    }
}
