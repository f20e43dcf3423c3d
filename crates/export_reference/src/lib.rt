// The reference text for C and Rust: where it is read, its table and codes go into slices of the caller's, and a label is handed back by
// its place in the text; where it is written, the text goes into such a slice.
#![tactic(auto)]

ghost use Rattle.std.specs.Prelude.{◌*◌, ◌≡◌, length, Ok, Err};
ghost use Rattle.limits.specs.Limits.{row_limit};
ghost use Rattle.lent.specs.Filled.{filled};
ghost use Rattle.channel.specs.Channel.{channel_types};
ghost use Rattle.reference.specs.Reference.{content};
ghost use Rattle.reference.specs.Clauses.{reference_outcome, reference_read, values_in};
ghost use Rattle.reference_label.specs.Clauses.{label_part};
ghost use Rattle.reference_write.specs.Writing.{lent_table, lent_text};
ghost use Rattle.reference_write.specs.Clauses.{written_text, reference_written};
ghost use Rattle.export_answers.specs.Clauses.{written_in_numbers};
ghost use Rattle.export_reference.specs.Clauses.{reference_in_numbers, reference_answer, label_answer};

use channel::Code;
use export_answers::WrittenAnswer;
use lent::fill;
use limits::PLACES;
use reference::read::Reference;
use reference_label::label_part;
use refusal::{Kind, Refusal};

// What a reference text answers: number 0 where accepted, else the refusal's number and line, m and n being 0.
#[repr(C)]
#[derive(Clone, Copy)]
pub struct ReferenceAnswer {
    pub number: u32,
    pub line: u32,
    pub m: usize,
    pub n: usize,
}

// Where a label stands in the text; its length is 0 where there is none.
#[repr(C)]
#[derive(Clone, Copy)]
pub struct LabelAnswer {
    pub start: usize,
    pub length: usize,
}

impl From<Reference> for ReferenceAnswer {
    ghost from_gives = { λ r a. a ≡ reference_in_numbers (reference_outcome (Ok r)) };

    fn from(reference: Reference) -> ReferenceAnswer {
        ReferenceAnswer {
            number: 0,
            line: 0,
            m: reference.m,
            n: reference.n,
        }
    }
}

impl From<Refusal> for ReferenceAnswer {
    ghost from_gives = { λ r a. a ≡ reference_in_numbers (reference_outcome (Err r)) };

    fn from(refusal: Refusal) -> ReferenceAnswer {
        ReferenceAnswer {
            number: refusal.number(),
            line: refusal.line,
            m: 0,
            n: 0,
        }
    }
}

// Reads a reference text. It fills the first m·n places of `table` with the values and the first n places of `codes` with the
// codes where accepted, and writes nothing else. Refused: 1, 2, then line by line 6 for a row past the limit, 3, the leftmost
// 4, 5; then 6 for no row; 7; last 13 for too few places for the codes.
pub fn read(text: &[u8], table: &mut [i32], codes: &mut [Code]) -> ReferenceAnswer
    ensures answer { result ≡ reference_answer (reference_read row_limit channel_types text.now (length table.old))
        (length codes.old) }
    ensures table_filled { table.new ≡ filled result.number (result.m * result.n) (values_in (content row_limit channel_types text.now))
        table.old }
    ensures codes_filled { codes.new ≡ filled result.number result.n
        (reference_read row_limit channel_types text.now (length table.old)).codes codes.old }
{
    let mut values = [0i32; PLACES];
    let reference = match reference::read::read(text, &mut values) {
        Ok(reference) => reference,
        Err(refusal) => return refusal.into(),
    };
    let places = reference.m * reference.n;
    if table.len() < places {
        return Refusal::from(Kind::TableShort).into();
    }
    if codes.len() < reference.n {
        return Refusal::from(Kind::BufferShort).into();
    }
    fill(table, &values, places);
    fill(codes, &reference.codes, reference.n);
    reference.into()
}

// Where the label of a row, counted from 1, stands in a reference text.
pub fn label(text: &[u8], row: usize) -> LabelAnswer
    ensures { result ≡ label_answer (label_part row_limit channel_types text.now row) }
{
    match label_part(text, row) {
        Some(part) => LabelAnswer {
            start: part.start,
            length: part.length,
        },
        None => LabelAnswer {
            start: 0,
            length: 0,
        },
    }
}

// Writes the reference text of a table: m rows of n channels of these codes, of `rows` the first m·n places and of `codes` the first n.
// The labels are lent as their bytes, one label after another, and `ends` has the index at which each ends. Where the text fits, it fills
// the first `length` places of `buffer` and no other. Refused, with `buffer` as it was: 8, then row by row 3, 4, 5, last 13.
pub fn write(
    rows: &[i32],
    m: usize,
    n: usize,
    codes: &[Code],
    labels: &[u8],
    ends: &[usize],
    buffer: &mut [u8],
) -> WrittenAnswer
    ensures answer { result ≡ written_in_numbers (reference_written row_limit channel_types
        (lent_table rows.now m n codes.now labels.now ends.now)
        (length buffer.old)) }
    ensures buffer_filled { buffer.new ≡ filled result.number result.length
        (written_text channel_types (lent_text row_limit channel_types
        (lent_table rows.now m n codes.now labels.now ends.now)))
        buffer.old }
{
    reference_write::write(rows, m, n, codes, labels, ends, buffer).into()
}
