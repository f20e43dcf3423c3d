// The mark of an envelope on a chart of two channels (document 01, "Chart and panel"). Its numbers are binary64, and each is exactly
// a whole number divided by 65,536: nothing is rounded, since that whole number has at most 31 binary digits and a binary64 number
// holds 53.
#![tactic(auto)]

ghost use Rattle.std.specs.Prelude.{◌≡◌, ◌≤◌, ◌-◌, ◌^◌, ◌&&◌, nat_abs};
ghost use Rattle.limits.specs.Limits.{total, distance_limit};
ghost use Rattle.geometry.specs.Places.{centre_of};
ghost use Rattle.geometry.specs.Clauses.{CentreWithin};
ghost use Rattle.channel.specs.Channel.{channel_types};
ghost use Rattle.envelope.specs.Figures.{figures_known};
ghost use Rattle.envelope.specs.Clauses.{lent_figures};
ghost use Rattle.chart.specs.Fraction.{fraction_of};
ghost use Rattle.chart.specs.Mark.{mark_outcome, channel_within, mark_of, chart_mark};

mod root;

use crate::root::ceiling_root;
use channel::Code;
use envelope::{Figures, Scalars, figures_known_lent};
use limits::TOTAL;
use refusal::{Kind, Refusal};

// A point of a chart: each coordinate is counted in steps of its channel.
#[derive(Clone, Copy)]
pub struct Point {
    pub horizontal: f64,
    pub vertical: f64,
}

// The mark of an envelope: a dot where its ball is a single point, else a disc with its radius.
#[derive(Clone, Copy)]
pub enum Mark {
    Dot(Point),
    Disc(Point, f64),
}

// x divided by the total.
fn fraction(x: i64) -> f64
    requires { nat_abs x ≤ 2 ^ 53 }
    ensures { result ≡ fraction_of total x }
{
    (x as f64) / (TOTAL as f64)
}

// A dot where M is 0, else a disc.
fn mark_of(point: Point, scaled_squared_radius: u64) -> Mark
    requires { scaled_squared_radius ≤ distance_limit total }
    ensures { mark_outcome (Ok result) ≡ mark_of total point scaled_squared_radius }
{
    if scaled_squared_radius == 0 {
        return Mark::Dot(point);
    }
    let root = ceiling_root(scaled_squared_radius);
    let radius = fraction(root as i64);
    Mark::Disc(point, radius)
}

// Whether a channel, counted from 1, is one of the n.
fn channel_within(n: usize, channel: usize) -> bool
    ensures { result ≡ channel_within n channel }
{
    (1..=n).contains(&channel)
}

// Whether the figures are within their limits and both channels are among the n.
fn chart_known(
    scalars: Scalars,
    codes: &[Code],
    scaled_centre: &[i64],
    horizontal: usize,
    vertical: usize,
) -> bool
    ensures { result ≡ (figures_known total channel_types (lent_figures scalars codes.now scaled_centre.now)
        && (channel_within scalars.n horizontal && channel_within scalars.n vertical)) }
{
    figures_known_lent(scalars, codes, scaled_centre)
        && channel_within(scalars.n, horizontal)
        && channel_within(scalars.n, vertical)
}

// X of a channel, counted from 1, divided by the total.
fn centre_fraction(n: usize, scaled_centre: &[i64], channel: usize) -> f64
    requires { CentreWithin n scaled_centre.now × ((1 ≤ channel) × (channel ≤ n)) }
    ensures { result ≡ fraction_of total (centre_of scaled_centre.now (channel - 1)) }
{
    fraction(scaled_centre[channel - 1])
}

// The mark of an envelope whose codes and X are lent, on the chart of two channels counted from 1. Refused: 8.
pub fn chart_lent(
    scalars: Scalars,
    codes: &[Code],
    scaled_centre: &[i64],
    horizontal: usize,
    vertical: usize,
) -> Result<Mark, Refusal>
    ensures { mark_outcome result ≡ chart_mark total channel_types (lent_figures scalars codes.now scaled_centre.now) horizontal vertical }
{
    if !chart_known(scalars, codes, scaled_centre, horizontal, vertical) {
        return Err(Kind::OutsideLimits.into());
    }
    let n = scalars.n;
    let point = Point {
        horizontal: centre_fraction(n, scaled_centre, horizontal),
        vertical: centre_fraction(n, scaled_centre, vertical),
    };
    Ok(mark_of(point, scalars.scaled_squared_radius))
}

// The same of figures as one value; C's calls lend codes and X.
pub fn chart(figures: Figures, horizontal: usize, vertical: usize) -> Result<Mark, Refusal>
    ensures { mark_outcome result ≡ chart_mark total channel_types figures horizontal vertical }
{
    chart_lent(
        figures.scalars(),
        &figures.codes,
        &figures.ball.scaled_centre,
        horizontal,
        vertical,
    )
}
