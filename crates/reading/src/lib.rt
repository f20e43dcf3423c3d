// The verdict on a reading against the figures of an envelope (document 01, "Texts"): Quiet when s of the reading, taken as a row,
// is at most M, else Alarm with s - M. Whoever made the figures and the text, the tags are matched before a value's range counts.
#![tactic(auto)]

ghost use Rattle.std.specs.Prelude.{◌≤◌, ◌≡◌, true, [], ◌∷◌, ◌++◌, length};
ghost use Rattle.limits.specs.Limits.{total, channel_limit};
ghost use Rattle.channel.specs.Channel.{channel_types};
ghost use Rattle.ball.specs.Ball.{filled_ball};
ghost use Rattle.envelope.specs.Figures.{figures_known, figures_of};
ghost use Rattle.envelope.specs.Clauses.{lent_figures};
ghost use Rattle.text.specs.Parts.{line_end, text_within};
ghost use Rattle.reading.specs.Verdict.{verdict_outcome, verdict_of, judged};
ghost use Rattle.reading.specs.Clauses.{distance_outcome, DistanceRead};

use channel::Code;
use envelope::{Figures, Scalars, figures_known_lent};
use figures::distance::scaled_squared_distance;
use limits::CHANNELS;
use reading_line::{Fault, read_line};
use refusal::{Kind, Refusal};
use text::parts::{LINE_END, text_within};

// The verdict on a reading: an Alarm has its excess s - M.
#[derive(Clone, Copy, PartialEq, Eq)]
pub enum Verdict {
    Quiet,
    Alarm(u64),
}

// s of the text that is this line and its byte 10, or its refusal, the values of a reading put into the lent places.
fn distance_of_line(
    scalars: Scalars,
    codes: &[Code],
    scaled_centre: &[i64],
    line: &[u8],
    places: &mut [i32],
) -> Result<u64, Refusal>
    requires { (figures_known total channel_types (lent_figures scalars codes.now scaled_centre.now) ≡ true)
        × ((text_within (line.now ++ (line_end ∷ [])) ≡ true) × (channel_limit ≤ length places.old)) }
    ensures { DistanceRead total channel_types (lent_figures scalars codes.now scaled_centre.now)
        (line.now ++ (line_end ∷ [])) places.old places.new (distance_outcome result) }
{
    let n = scalars.n;
    match read_line(line, codes, n, places) {
        Ok(()) => Ok(scaled_squared_distance(places, n, 0, scaled_centre)),
        Err(Fault::Malformed) => Err(Refusal::new(Kind::LineForm, 1)),
        Err(Fault::TagDiffers) => Err(Refusal::new(Kind::TagDiffers, 1)),
        Err(Fault::OutOfRange) => Err(Refusal::new(Kind::ValueRange, 1)),
    }
}

// s of a text as a reading against the figures of an envelope whose codes and X are lent, or its refusal, the values of a reading put
// into the lent places. The single numbers come one by one, since a struct goes through memory, for which a reading of one channel
// waits. Refused: 8, 1, 3, the leftmost 10, the leftmost 4.
pub fn distance_of_text(
    n: usize,
    scaled_squared_radius: u64,
    scaled_lower_bound: u64,
    settled: bool,
    moves: u32,
    codes: &[Code],
    scaled_centre: &[i64],
    text: &[u8],
    places: &mut [i32],
) -> Result<u64, Refusal>
    requires { channel_limit ≤ length places.old }
    ensures { DistanceRead total channel_types (figures_of n codes.now
        (filled_ball scaled_centre.now scaled_squared_radius scaled_lower_bound settled) moves)
        text.now places.old places.new (distance_outcome result) }
{
    let scalars = Scalars {
        n,
        moves,
        scaled_squared_radius,
        settled,
        scaled_lower_bound,
    };
    let known = figures_known_lent(scalars, codes, scaled_centre);
    let within = text_within(text);
    if !known {
        return Err(Kind::OutsideLimits.into());
    }
    if !within {
        return Err(Kind::TextLength.into());
    }
    let end = text.len() - 1;
    if text[end] != LINE_END {
        return Err(Refusal::new(Kind::LineForm, 1));
    }
    distance_of_line(scalars, codes, scaled_centre, &text[..end], places)
}

// s against M.
pub fn verdict_of(scaled_squared_distance: u64, scaled_squared_radius: u64) -> Verdict
    ensures { verdict_outcome (Ok result) ≡ verdict_of scaled_squared_distance scaled_squared_radius }
{
    if scaled_squared_distance <= scaled_squared_radius {
        Verdict::Quiet
    } else {
        Verdict::Alarm(scaled_squared_distance - scaled_squared_radius)
    }
}

// The verdict on a text against the figures of an envelope whose codes and X are lent. Refused as above.
pub fn judge_lent(
    n: usize,
    scaled_squared_radius: u64,
    scaled_lower_bound: u64,
    settled: bool,
    moves: u32,
    codes: &[Code],
    scaled_centre: &[i64],
    text: &[u8],
) -> Result<Verdict, Refusal>
    ensures { verdict_outcome result ≡ judged total channel_types (figures_of n codes.now
        (filled_ball scaled_centre.now scaled_squared_radius scaled_lower_bound settled) moves) text.now }
{
    let mut places = [0i32; CHANNELS];
    let distance = distance_of_text(
        n,
        scaled_squared_radius,
        scaled_lower_bound,
        settled,
        moves,
        codes,
        scaled_centre,
        text,
        &mut places,
    )?;
    Ok(verdict_of(distance, scaled_squared_radius))
}

// The same against figures as one value; C's calls lend codes and X.
pub fn judge(figures: Figures, text: &[u8]) -> Result<Verdict, Refusal>
    ensures { verdict_outcome result ≡ judged total channel_types figures text.now }
{
    let ball = figures.ball;
    judge_lent(
        figures.n,
        ball.scaled_squared_radius,
        ball.scaled_lower_bound,
        ball.settled,
        figures.moves,
        &figures.codes,
        &ball.scaled_centre,
        text,
    )
}
