#![tactic(auto)]
// Reference texts written (document 02, job 1): the text of a table, its types and the labels of its rows, with plain values. Labels
// are lent as their bytes, one label after another, and the index at which each ends. The text is printed row by row into places of
// its own, so that a refused call changes nothing that is lent.
ghost use Rattle.std.specs.Prelude.{◌≡◌, ◌&&◌, [], ◌∷◌, ◌++◌, map, ◌≤◌, eqb, length, take};
ghost use Rattle.refusal.specs.Outcome.{number_of, outcome_of};
ghost use Rattle.limits.specs.Limits.{row_limit};
ghost use Rattle.lent.specs.Filled.{filled};
ghost use Rattle.lent.specs.Clauses.{text_outcome};
ghost use Rattle.text.specs.Parts.{line_end};
ghost use Rattle.printing.specs.Clauses.{Put};
ghost use Rattle.channel.specs.Channel.{channel_types};
ghost use Rattle.value.specs.Value.{number};
ghost use Rattle.value.specs.Values.{values_in_range};
ghost use Rattle.reference_row.specs.Row.{print_row};
ghost use Rattle.reference_write.specs.Labels.{ends_reach};
ghost use Rattle.reference_write.specs.Writing.{lent_table, plain_row, lent_text};
ghost use Rattle.reference_write.specs.Clauses.{written_text, reference_written, RowRoom, TextAsked, TextPut};

use channel::{Code, range_of};
use heading::put_heading;
use label::marks::{MARKS, mark, used_of_marked};
use label::row::row_label_key;
use lent::hand_out;
use limits::{CHANNEL_DIGITS, CHANNELS, COORDINATE_DIGITS, LABEL_MOST, ROWS, TAG_MOST};
use printing::{FIELD_ROOM, put_line};
use reference::read::{FIRST_ROW_LINE, WORD, WORD_BYTES};
use refusal::{Kind, Refusal};
use text::parts::LINE_END;
use typed_rows::given_within;
use value::in_range;

// The most bytes of the heading and of a row's line, each with its byte 10, and of a text that is written. A value has a hyphen at most
// before its digits.
const HEADING_LINE_MOST: usize = WORD_BYTES + (1 + CHANNEL_DIGITS) + CHANNELS * (1 + TAG_MOST) + 1;

const ROW_LINE_MOST: usize = LABEL_MOST + CHANNELS * (2 + COORDINATE_DIGITS) + 1;

pub const REFERENCE_MOST: usize = HEADING_LINE_MOST + ROWS * ROW_LINE_MOST;

// Room for the printing of every text: in its last line a number may take as many digits as the largest.
const TEXT_ROOM: usize = REFERENCE_MOST + CHANNELS * FIELD_ROOM;

// Whether there are m ends, none below the one before it, the last one the number of bytes.
fn ends_within(labels: &[u8], ends: &[usize], m: usize) -> bool
    ensures { result ≡ (eqb (length ends.now) m && ends_reach 0 ends.now (length labels.now)) }
{
    if ends.len() != m {
        return false;
    }
    let mut reached = 0;
    for &end in ends {
        if end < reached {
            return false;
        }
        reached = end;
    }
    reached == labels.len()
}

// Whether each of n numbers is within the range of its type.
fn row_in_range(numbers: &[i32], codes: &[Code], n: usize) -> bool
    requires { (n ≤ length numbers.now) × (n ≤ length codes.now) }
    ensures { result ≡ values_in_range channel_types (take n codes.now) (map number (take n numbers.now)) }
{
    for i in 0..n {
        if !in_range(numbers[i], range_of(codes[i])) {
            return false;
        }
    }
    true
}

// The line of a row of n plain values, with its byte 10. Answers the index after it.
fn put_row(out: &mut [u8], at: usize, label: &[u8], numbers: &[i32], n: usize) -> usize
    requires { RowRoom label.now numbers.now n out.old at }
    ensures { Put (print_row (plain_row label.now (take n numbers.now)) ++ (line_end ∷ [])) out.old at
        out.new result }
{
    let mut values = [0i64; CHANNELS];
    for i in 0..n {
        values[i] = i64::from(numbers[i]);
    }
    put_line(out, at, label, &values, n)
}

// The text of what is within its limits, printed from the start of a slice with room for every text, and its length. Refused: row by
// row 3, 4, 5.
fn put_text(
    rows: &[i32],
    n: usize,
    codes: &[Code],
    labels: &[u8],
    ends: &[usize],
    out: &mut [u8],
) -> Result<usize, Refusal>
    requires { TextAsked (lent_table rows.now (length ends.now) n codes.now labels.now ends.now) out.old }
    ensures { TextPut
        (lent_text row_limit channel_types (lent_table rows.now (length ends.now) n codes.now labels.now ends.now))
        out.new (text_outcome result) }
{
    let mut keys = [0u64; ROWS];
    let mut marks = [false; MARKS];
    let heading_end = put_heading(out, 0, &WORD, codes, n);
    out[heading_end] = LINE_END;
    let mut at = heading_end + 1;
    let mut from = 0;
    let mut place = 0;
    for i in 0..ends.len() {
        let line = FIRST_ROW_LINE + i as u32;
        let end = ends[i];
        let next = place + n;
        let label = &labels[from..end];
        let numbers = &rows[place..next];
        let within = row_in_range(numbers, codes, n);
        let Some(key) = row_label_key(label) else {
            return Err(Refusal::new(Kind::LineForm, line));
        };
        if !within {
            return Err(Refusal::new(Kind::ValueRange, line));
        }
        if used_of_marked(&keys, i, &marks, key) {
            return Err(Refusal::new(Kind::LabelRepeated, line));
        }
        at = put_row(out, at, label, numbers, n);
        keys[i] = key;
        mark(&mut marks, key);
        from = end;
        place = next;
    }
    Ok(at)
}

// Writes the reference text of the first m rows of n channels, of the types that the first n codes have and with these labels, to the
// first places of the buffer, and to no other. Refused, with the buffer as it was: 8, row by row 3, 4, 5 at the line that the row
// would have, then 13.
pub fn write(
    rows: &[i32],
    m: usize,
    n: usize,
    codes: &[Code],
    labels: &[u8],
    ends: &[usize],
    buffer: &mut [u8],
) -> Result<usize, Refusal>
    ensures answer { text_outcome result ≡ reference_written row_limit channel_types
        (lent_table rows.now m n codes.now labels.now ends.now) (length buffer.old) }
    ensures buffer_filled { buffer.new ≡ filled (number_of (outcome_of result)) (text_outcome result).length
        (written_text channel_types (lent_text row_limit channel_types
        (lent_table rows.now m n codes.now labels.now ends.now))) buffer.old }
{
    if !given_within(rows, m, n, codes) || !ends_within(labels, ends, m) {
        return Err(Kind::OutsideLimits.into());
    }
    let mut text = [0u8; TEXT_ROOM];
    let length = put_text(rows, n, codes, labels, ends, &mut text)?;
    hand_out(&text[..length], buffer)
}
