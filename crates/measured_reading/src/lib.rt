// A measured reading: the verdict as `reading` gives it, with s beside it and the values as they read in a lent slice. One walk over the
// line gives all three; the values go to an array first, since a refused reading leaves the slice as it was.
#![tactic(auto)]

ghost use Rattle.std.specs.Prelude.{◌≡◌, length};
ghost use Rattle.limits.specs.Limits.{total};
ghost use Rattle.lent.specs.Filled.{filled};
ghost use Rattle.channel.specs.Channel.{channel_types};
ghost use Rattle.envelope.specs.Clauses.{lent_figures};
ghost use Rattle.reading.specs.Verdict.{verdict_number};
ghost use Rattle.measured_reading.specs.Measured.{measured_outcome, measured, measure_answer};

use channel::Code;
use envelope::{Figures, Scalars};
use lent::fill;
use limits::CHANNELS;
use reading::{Verdict, distance_of_text, verdict_of};
use refusal::{Kind, Refusal};

// The verdict on a reading and its s.
#[derive(Clone, Copy)]
pub struct Measured {
    pub verdict: Verdict,
    pub scaled_squared_distance: u64,
}

// The verdict on a text and its s, against the figures of an envelope whose codes and X are lent. It fills the first n places of `values`
// with the values where accepted, and writes nothing else. Refused: 8, 1, 3, the leftmost 10, the leftmost 4, then 13.
pub fn measure_lent(
    scalars: Scalars,
    codes: &[Code],
    scaled_centre: &[i64],
    text: &[u8],
    values: &mut [i32],
) -> Result<Measured, Refusal>
    ensures answer { measured_outcome result ≡ measure_answer (measured total channel_types (lent_figures scalars codes.now scaled_centre.now)
        text.now) (length values.old) }
    ensures values_filled { values.new ≡ filled (verdict_number (measured_outcome result).verdict) scalars.n
        (measured total channel_types (lent_figures scalars codes.now scaled_centre.now) text.now).values
        values.old }
{
    let n = scalars.n;
    let mut places = [0i32; CHANNELS];
    let read = distance_of_text(
        n,
        scalars.scaled_squared_radius,
        scalars.scaled_lower_bound,
        scalars.settled,
        scalars.moves,
        codes,
        scaled_centre,
        text,
        &mut places,
    );
    // an arm for a refusal in place of `?`: the edit a_4_answered_by_13 changes it
    match read {
        Ok(distance) => {
            if values.len() < n {
                return Err(Kind::BufferShort.into());
            }
            fill(values, &places, n);
            Ok(Measured {
                verdict: verdict_of(distance, scalars.scaled_squared_radius),
                scaled_squared_distance: distance,
            })
        }
        Err(refusal) => Err(refusal),
    }
}

// The same against figures as one value; C's calls lend codes and X.
pub fn measure(figures: Figures, text: &[u8], values: &mut [i32]) -> Result<Measured, Refusal>
    ensures answer { measured_outcome result ≡ measure_answer (measured total channel_types figures text.now) (length values.old) }
    ensures values_filled { values.new ≡ filled (verdict_number (measured_outcome result).verdict) figures.n (measured total channel_types figures text.now).values
        values.old }
{
    measure_lent(
        figures.scalars(),
        &figures.codes,
        &figures.ball.scaled_centre,
        text,
        values,
    )
}
