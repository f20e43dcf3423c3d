// What the panel shows: the centre of an envelope to the nearest whole step, halves away from zero.
#![tactic(auto)]

ghost use Rattle.std.specs.Prelude.{◌≡◌, ◌≤◌, nat_abs};
ghost use Rattle.integers.specs.Reading.{Bounded};
ghost use Rattle.limits.specs.Limits.{total, channel_limit, coordinate_limit, centre_limit};
ghost use Rattle.geometry.specs.Places.{centre_of, centre_list};
ghost use Rattle.geometry.specs.Clauses.{CentreWithin};
ghost use Rattle.channel.specs.Channel.{channel_types};
ghost use Rattle.envelope.specs.Clauses.{lent_figures};
ghost use Rattle.panel_steps.specs.Panel.{nearest_magnitude, nearest_step, panel_outcome, panel_shown};

use channel::Code;
use envelope::{Figures, Scalars, figures_known_lent};
use limits::{CHANNELS, TOTAL};
use refusal::{Kind, Refusal};

// The whole number nearest to a place of X that is not below 0, divided by the total; a half goes up.
fn nearest_magnitude(x: u32) -> u32
    requires { x ≤ centre_limit total }
    ensures { Bounded coordinate_limit result (nearest_magnitude total x) }
{
    (2 * x + TOTAL) / (2 * TOTAL)
}

// The whole number nearest to a place of X divided by the total; a half goes away from 0.
fn nearest_step(x: i64) -> i32
    requires { nat_abs x ≤ centre_limit total }
    ensures { result ≡ nearest_step total x }
{
    if x < 0 {
        let below = nearest_magnitude((-x) as u32);
        return -(below as i32);
    }
    nearest_magnitude(x as u32) as i32
}

// The steps of the n channels in their places, 0 past them.
fn steps_of(scaled_centre: &[i64], n: usize) -> [i32; CHANNELS]
    requires { (n ≤ channel_limit) × CentreWithin n scaled_centre.now }
    ensures { result ≡ centre_list n (λ k. nearest_step total (centre_of scaled_centre.now k)) }
{
    let mut steps = [0i32; CHANNELS];
    for k in 0..n {
        steps[k] = nearest_step(scaled_centre[k]);
    }
    steps
}

// What the panel shows of an envelope whose codes and X are lent: the steps of the n channels, 0 in the places past them. Refused: 8.
pub fn panel_lent(
    scalars: Scalars,
    codes: &[Code],
    scaled_centre: &[i64],
) -> Result<[i32; CHANNELS], Refusal>
    ensures { panel_outcome result ≡ panel_shown total channel_types (lent_figures scalars codes.now scaled_centre.now) }
{
    if !figures_known_lent(scalars, codes, scaled_centre) {
        return Err(Kind::OutsideLimits.into());
    }
    Ok(steps_of(scaled_centre, scalars.n))
}

// The same of figures as one value; C's calls lend codes and X.
pub fn panel(figures: Figures) -> Result<[i32; CHANNELS], Refusal>
    ensures { panel_outcome result ≡ panel_shown total channel_types figures }
{
    panel_lent(
        figures.scalars(),
        &figures.codes,
        &figures.ball.scaled_centre,
    )
}
