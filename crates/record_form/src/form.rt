// A record, line by line.
ghost use Rattle.std.specs.Prelude.{◌≡◌, ◌≤◌, length};
ghost use Rattle.limits.specs.Limits.{row_limit};
ghost use Rattle.channel.specs.Channel.{channel_types};
ghost use Rattle.record_form.specs.Record.{form};
ghost use Rattle.record_form.specs.Clauses.{WeightsRead, AfterCentreRead, stated_form};

use channel::Code;
use heading::read_heading;
use limits::{CHANNELS, ROWS};
use record_lines::line::{WeightLine, read_centre, read_result, read_weight};
use record_lines::words::RECORD_WORD;
use text::parts::line_end;

// What a record in form states.
#[derive(Drop)]
pub struct Stated {
    pub n: usize,
    pub codes: [Code; CHANNELS],
    pub scaled_centre: [i64; CHANNELS],
    pub scaled_squared_radius: i64,
    pub scaled_lower_bound: i64,
    pub moves: u32,
    pub settled: bool,
    pub weights: [u32; ROWS],
}

// The `W` lines from `at` of the text on, which is line 4, put into the lent weights. Turned back at the first faulty line.
fn read_weights(text: &[u8], at: usize, weights: &mut [u32]) -> Result<(), u32>
    requires { (at ≤ length text.now) × (length weights.old ≡ row_limit) }
    ensures { WeightsRead text.now at weights.old weights.new result }
{
    let mut from = at;
    let mut last = 0;
    let mut line = 4;
    // The step is a line.
    while from < text.len() {
        let end = line_end(text, from);
        if end == text.len() {
            return Err(line);
        }
        let Some(WeightLine { row, weight }) = read_weight(&text[from..end], last) else {
            return Err(line);
        };
        weights[row - 1] = weight;
        last = row;
        from = end + 1;
        line += 1;
    }
    if last == 0 {
        return Err(line);
    }
    Ok(())
}

// What a record states from `at` of the text on, which is line 3: the `R` line and the `W` lines. n, the codes and X are those of
// the lines before. Turned back at the first faulty line.
fn read_after_centre(
    text: &[u8],
    at: usize,
    n: usize,
    codes: [Code; CHANNELS],
    scaled_centre: [i64; CHANNELS],
) -> Result<Stated, u32>
    requires { at ≤ length text.now }
    ensures { AfterCentreRead text.now at n codes scaled_centre result }
{
    let end = line_end(text, at);
    if end == text.len() {
        return Err(3);
    }
    let Some(result_line) = read_result(&text[at..end]) else {
        return Err(3);
    };
    let mut weights = [0u32; ROWS];
    read_weights(text, end + 1, &mut weights)?;
    Ok(Stated {
        n,
        codes,
        scaled_centre,
        scaled_squared_radius: result_line.scaled_squared_radius,
        scaled_lower_bound: result_line.scaled_lower_bound,
        moves: result_line.moves,
        settled: result_line.settled,
        weights,
    })
}

// What a text states, if it is a record in form. Turned back at the first faulty line.
pub fn read_form(text: &[u8]) -> Result<Stated, u32>
    ensures { result ≡ stated_form (form row_limit channel_types text.now) }
{
    let heading_end = line_end(text, 0);
    if heading_end == text.len() {
        return Err(1);
    }
    let Some(heading) = read_heading(&text[..heading_end], &RECORD_WORD) else {
        return Err(1);
    };
    let centre_at = heading_end + 1;
    let centre_end = line_end(text, centre_at);
    if centre_end == text.len() {
        return Err(2);
    }
    let mut scaled_centre = [0i64; CHANNELS];
    if !read_centre(&text[centre_at..centre_end], heading.n, &mut scaled_centre) {
        return Err(2);
    }
    read_after_centre(
        text,
        centre_end + 1,
        heading.n,
        heading.codes,
        scaled_centre,
    )
}
