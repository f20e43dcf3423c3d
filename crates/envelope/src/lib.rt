// An envelope as it is handed from call to call: its figures, and the weights that they come from. The limits on the figures
// (document 01, "Turned-back input", 8) and their codes are tested by one function, `figures_known_lent`, whoever made the envelope;
// the codes and X are lent to it beside the figures that are single numbers.
#![tactic(auto)]

ghost use Rattle.std.specs.Prelude.{◌≡◌, List, ℕ, ◌≤◌, leb, nat_abs, length};
ghost use Rattle.limits.specs.Limits.{total, row_limit, centre_limit};
ghost use Rattle.geometry.specs.Table.{places_within};
ghost use Rattle.channel.specs.Channel.{channel_types};
ghost use Rattle.envelope.specs.Figures.{figures_within, figures_known, figures_of, empty_figures, empty_envelope};
ghost use Rattle.envelope.specs.Clauses.{places_lent, scalars_of, lent_figures};

use ball::Ball;
use channel::Code;
use limits::{BUDGET_MOST, CENTRE_MOST, CHANNELS, DISTANCE_MOST, ROWS};

// An envelope's figures: n channels of these codes, X, M, L and the ending (in `ball`), and the moves made. Places past n are
// not looked at when the figures are handed in, and are 0 when they are handed out.
#[derive(Clone, Copy)]
pub struct Figures {
    pub n: usize,
    pub codes: [Code; CHANNELS],
    pub ball: Ball,
    pub moves: u32,
}

// The figures that are single numbers: n, M, L, the ending and the moves. The codes and X are lent beside them. No two numbers of 64 bits
// stand side by side, since a compiler copies such two by one wide load, which waits for the two stores before it.
#[derive(Clone, Copy)]
pub struct Scalars {
    pub n: usize,
    pub moves: u32,
    pub scaled_squared_radius: u64,
    pub settled: bool,
    pub scaled_lower_bound: u64,
}

// The figures and the weights of the rows; places past the rows are 0.
#[derive(Drop)]
pub struct Envelope {
    pub figures: Figures,
    pub weights: [u32; ROWS],
}

impl Figures {
    // The figures of a ball for n channels of these codes.
    pub fn new(n: usize, codes: [Code; CHANNELS], ball: Ball, moves: u32) -> Figures
        ensures { result ≡ figures_of n codes ball moves }
    {
        Figures {
            n,
            codes,
            ball,
            moves,
        }
    }

    // The single numbers of figures.
    pub fn scalars(self) -> Scalars
        ensures { result ≡ scalars_of self }
    {
        Scalars {
            n: self.n,
            scaled_squared_radius: self.ball.scaled_squared_radius,
            scaled_lower_bound: self.ball.scaled_lower_bound,
            settled: self.ball.settled,
            moves: self.moves,
        }
    }
}

// Every figure 0.
impl Default for Figures {
    ghost is_default = { λ f. f ≡ empty_figures };

    fn default() -> Figures {
        Figures::new(0, [0; CHANNELS], Ball::default(), 0)
    }
}

// Every figure and weight 0.
impl Default for Envelope {
    ghost is_default = { λ e. e ≡ empty_envelope row_limit };

    fn default() -> Envelope {
        Envelope {
            figures: Figures::default(),
            weights: [0u32; ROWS],
        }
    }
}

fn place_within(x: i64) -> bool
    ensures { result ≡ leb (nat_abs x) (centre_limit total) }
{
    -CENTRE_MOST <= x && x <= CENTRE_MOST
}

// Whether the first n places of X are within their limit.
fn centre_within(scaled_centre: &[i64], n: usize) -> bool
    requires { n ≤ length scaled_centre.now }
    ensures { result ≡ places_within (centre_limit total) n scaled_centre.now }
{
    scaled_centre[..n].iter().all(|x| place_within(*x))
}

// Whether n, X, M, L and the moves are within their limits. The codes are not looked at.
#[tactic(auto, using(std::proofs::lemmas::Bool::Decides::nat_tests), unfolding(crate::specs::Figures::figures_within))]
fn figures_within(scalars: Scalars, scaled_centre: &[i64]) -> bool
    requires { scalars.n ≤ length scaled_centre.now }
    ensures { (codes : List ℕ) → result ≡ figures_within total (lent_figures scalars codes scaled_centre.now) }
{
    (1..=CHANNELS).contains(&scalars.n)
        && centre_within(scaled_centre, scalars.n)
        && scalars.scaled_squared_radius <= DISTANCE_MOST
        && scalars.scaled_lower_bound <= DISTANCE_MOST
        && scalars.moves <= BUDGET_MOST
}

// Whether a code and a place of X are lent for each of the n channels.
pub fn places_lent(n: usize, codes: &[Code], scaled_centre: &[i64]) -> bool
    ensures { result ≡ places_lent n codes.now scaled_centre.now }
{
    n <= codes.len() && n <= scaled_centre.len()
}

// Whether every figure is within its limits, and each of the n codes is that of a type: what readings, records, charts and panels
// ask of the figures that they are given.
pub fn figures_known_lent(scalars: Scalars, codes: &[Code], scaled_centre: &[i64]) -> bool
    ensures { result ≡ figures_known total channel_types (lent_figures scalars codes.now scaled_centre.now) }
{
    places_lent(scalars.n, codes, scaled_centre)
        && channel::codes_known(codes, scalars.n)
        && figures_within(scalars, scaled_centre)
}

// The same of figures as one value; C's calls lend codes and X.
pub fn figures_known(figures: Figures) -> bool
    ensures { result ≡ figures_known total channel_types figures }
{
    figures_known_lent(
        figures.scalars(),
        &figures.codes,
        &figures.ball.scaled_centre,
    )
}
