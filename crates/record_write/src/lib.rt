// Records written (document 01, "Texts"): the record of an envelope is written only where it would be read back.
#![tactic(auto)]

ghost use Rattle.std.specs.Prelude.{◌≡◌, length};
ghost use Rattle.refusal.specs.Outcome.{number_of, outcome_of};
ghost use Rattle.limits.specs.Limits.{total, row_limit};
ghost use Rattle.lent.specs.Filled.{filled};
ghost use Rattle.lent.specs.Clauses.{text_outcome};
ghost use Rattle.channel.specs.Channel.{channel_types};
ghost use Rattle.record_print.specs.Printed.{record_text};
ghost use Rattle.record_write.specs.Clauses.{record_written};

use agreement::agrees;
use envelope::{Envelope, figures_known};
use figures::table::rows_within;
use lent::hand_out;
use limits::{
    CENTRE_DIGITS, CHANNEL_DIGITS, CHANNELS, DISTANCE_DIGITS, MOVES_DIGITS, ROW_DIGITS, ROWS,
    TAG_MOST, WEIGHT_DIGITS,
};
use printing::FIELD_ROOM;
use record_lines::words::{LETTER_BYTES, LINE_WORD_BYTES, RECORD_WORD_BYTES};
use record_print::print_record;
use refusal::{Kind, Refusal};

// The most bytes of a heading, of a `C`, an `R` and a `W` line, each with its byte 10, and of a record that is written. Each field is a
// comma and a tag, a number of so many digits (those of X after a hyphen), or a letter.
const HEADING_LINE_MOST: usize = RECORD_WORD_BYTES
    + (1 + CHANNEL_DIGITS)
    + CHANNELS * (1 + TAG_MOST)
    + 1;

const CENTRE_LINE_MOST: usize = LINE_WORD_BYTES + CHANNELS * (2 + CENTRE_DIGITS) + 1;

const RESULT_LINE_MOST: usize = LINE_WORD_BYTES
    + 2 * (1 + DISTANCE_DIGITS)
    + (1 + MOVES_DIGITS)
    + (1 + LETTER_BYTES)
    + 1;

const WEIGHT_LINE_MOST: usize = LINE_WORD_BYTES + (1 + ROW_DIGITS) + (1 + WEIGHT_DIGITS) + 1;

pub const RECORD_MOST: usize = HEADING_LINE_MOST
    + CENTRE_LINE_MOST
    + RESULT_LINE_MOST
    + ROWS * WEIGHT_LINE_MOST;

// Room for the printing of every record: a number may take a hyphen and as many digits as the largest.
const RECORD_ROOM: usize = HEADING_LINE_MOST
    + (LINE_WORD_BYTES + CHANNELS * FIELD_ROOM + 1)
    + (LINE_WORD_BYTES + 3 * FIELD_ROOM + (1 + LETTER_BYTES) + 1)
    + ROWS * (LINE_WORD_BYTES + 2 * FIELD_ROOM + 1);

// Writes the record of an envelope, drawn from the first m rows, to the first places of the buffer, and to no other. Refused, with
// the buffer as it was: 8, 12, 13.
pub fn write(
    envelope: Envelope,
    rows: &[i32],
    m: usize,
    buffer: &mut [u8],
) -> Result<usize, Refusal>
    ensures answer { text_outcome result ≡ record_written total row_limit channel_types rows.now m envelope (length buffer.old) }
    ensures buffer_filled { buffer.new ≡ filled (number_of (outcome_of result)) (text_outcome result).length (record_text channel_types envelope)
        buffer.old }
{
    let figures = envelope.figures;
    let weights = envelope.weights;
    let n = figures.n;
    if !figures_known(figures) || !rows_within(rows, m, n) {
        return Err(Kind::OutsideLimits.into());
    }
    if !agrees(rows, m, n, figures.ball, &weights) {
        return Err(Kind::Disagreement.into());
    }
    let mut text = [0u8; RECORD_ROOM];
    let length = print_record(figures, &weights, &mut text);
    hand_out(&text[..length], buffer)
}
