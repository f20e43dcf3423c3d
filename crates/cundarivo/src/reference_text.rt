// The reference text for C and Rust.
ghost use Rattle.std.specs.Prelude.{◌*◌, ◌≡◌, length};
ghost use Rattle.limits.specs.Limits.{row_limit};
ghost use Rattle.lent.specs.Filled.{filled};
ghost use Rattle.channel.specs.Channel.{channel_types};
ghost use Rattle.reference.specs.Reference.{content};
ghost use Rattle.reference.specs.Clauses.{reference_read, values_in};
ghost use Rattle.reference_label.specs.Clauses.{label_part};
ghost use Rattle.reference_write.specs.Writing.{lent_table, lent_text};
ghost use Rattle.reference_write.specs.Clauses.{written_text, reference_written};
ghost use Rattle.export_answers.specs.Clauses.{written_in_numbers};
ghost use Rattle.export_reference.specs.Clauses.{reference_answer, label_answer};

use channel::Code;
use export_answers::WrittenAnswer;
use export_reference::{LabelAnswer, ReferenceAnswer};

// Reads a reference text. It fills the first m·n places of `table` with the values and the first n places of `codes` with the
// codes where accepted, and writes nothing else. Refused: 1, 2, then line by line 6 for a row past the limit, 3, the leftmost
// 4, 5; then 6 for no row; 7; last 13 for too few places for the codes.
pub fn cundarivo_read_reference(
    text: &[u8],
    table: &mut [i32],
    codes: &mut [Code],
) -> ReferenceAnswer
    ensures answer { result ≡ reference_answer (reference_read row_limit channel_types text.now (length table.old))
        (length codes.old) }
    ensures table_filled { table.new ≡ filled result.number (result.m * result.n) (values_in (content row_limit channel_types text.now))
        table.old }
    ensures codes_filled { codes.new ≡ filled result.number result.n
        (reference_read row_limit channel_types text.now (length table.old)).codes codes.old }
{
    export_reference::read(text, table, codes)
}

// Where the label of a row, counted from 1, stands in a reference text.
pub fn cundarivo_label(text: &[u8], row: usize) -> LabelAnswer
    ensures { result ≡ label_answer (label_part row_limit channel_types text.now row) }
{
    export_reference::label(text, row)
}

// Writes the reference text of a table: m rows of n channels of these codes, of `rows` the first m·n places and of `codes` the first n.
// The labels are lent as their bytes, one label after another, and `ends` has the index at which each ends. Where the text fits, it fills
// the first `length` places of `buffer` and no other. Refused, with `buffer` as it was: 8, then row by row 3, 4, 5, last 13.
pub fn cundarivo_write_reference(
    rows: &[i32],
    m: usize,
    n: usize,
    codes: &[Code],
    labels: &[u8],
    ends: &[usize],
    buffer: &mut [u8],
) -> WrittenAnswer
    ensures answer { result ≡ written_in_numbers (reference_written row_limit channel_types
        (lent_table rows.now m n codes.now labels.now ends.now)
        (length buffer.old)) }
    ensures buffer_filled { buffer.new ≡ filled result.number result.length
        (written_text channel_types (lent_text row_limit channel_types
        (lent_table rows.now m n codes.now labels.now ends.now)))
        buffer.old }
{
    export_reference::write(rows, m, n, codes, labels, ends, buffer)
}
