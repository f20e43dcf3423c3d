#![tactic(auto)]
// Records read (document 01, "Texts"): a record is read against the rows and tags that it is said to be drawn from.
ghost use Rattle.std.specs.Prelude.{◌≡◌};
ghost use Rattle.limits.specs.Limits.{total, row_limit};
ghost use Rattle.channel.specs.Channel.{channel_types};
ghost use Rattle.record_read.specs.Clauses.{Agreeing, envelope_outcome, stated_answer, record_read};

use agreement::agrees;
use ball::Ball;
use channel::{Code, same_codes};
use envelope::{Envelope, Figures};
use record_form::form::{Stated, read_form};
use refusal::{Kind, Refusal};
use text::parts::text_within;
use typed_rows::given_within;

// What a record in form states against rows and codes within their limits.
fn agreed(
    rows: &[i32],
    m: usize,
    n: usize,
    codes: &[Code],
    stated: Stated,
) -> Result<Envelope, Refusal>
    requires { Agreeing rows.now m n codes.now stated }
    ensures { envelope_outcome row_limit result ≡ stated_answer total row_limit rows.now m codes.now stated }
{
    let stated_codes = stated.codes;
    if !same_codes(codes, &stated_codes[..stated.n]) {
        return Err(Kind::Disagreement.into());
    }
    if stated.scaled_squared_radius < 0 || stated.scaled_lower_bound < 0 {
        return Err(Kind::Disagreement.into());
    }
    let scaled_squared_radius = stated.scaled_squared_radius as u64;
    let scaled_lower_bound = stated.scaled_lower_bound as u64;
    let scaled_centre = stated.scaled_centre;
    let ball = Ball {
        scaled_centre,
        scaled_squared_radius,
        scaled_lower_bound,
        settled: stated.settled,
    };
    let weights = stated.weights;
    if !agrees(rows, m, n, ball, &weights) {
        return Err(Kind::Disagreement.into());
    }
    let figures = Figures::new(stated.n, stated_codes, ball, stated.moves);
    Ok(Envelope { figures, weights })
}

// Reads a record against the first m rows of n channels and the first n codes. Refused: 8, 1, 11, 12.
pub fn read(
    rows: &[i32],
    m: usize,
    n: usize,
    codes: &[Code],
    text: &[u8],
) -> Result<Envelope, Refusal>
    ensures { envelope_outcome row_limit result ≡ record_read total row_limit channel_types rows.now m n codes.now text.now }
{
    let given = given_within(rows, m, n, codes);
    let within = text_within(text);
    if !given {
        return Err(Kind::OutsideLimits.into());
    }
    if !within {
        return Err(Kind::TextLength.into());
    }
    match read_form(text) {
        Ok(stated) => agreed(rows, m, n, &codes[..n], stated),
        Err(line) => Err(Refusal::new(Kind::RecordForm, line)),
    }
}
