// The calls of `cundarivo::reference_text`.
ghost use Rattle.std.specs.Prelude.{◌*◌, ◌≡◌, length};
ghost use Rattle.limits.specs.Limits.{row_limit};
ghost use Rattle.lent.specs.Filled.{filled};
ghost use Rattle.channel.specs.Channel.{channel_types};
ghost use Rattle.reference.specs.Reference.{content};
ghost use Rattle.reference.specs.Clauses.{reference_read, values_in};
ghost use Rattle.reference_label.specs.Clauses.{label_part};
ghost use Rattle.reference_write.specs.Writing.{lent_table, lent_text};
ghost use Rattle.reference_write.specs.Clauses.{written_text, reference_written};
ghost use Rattle.export_answers.specs.Clauses.{written_in_numbers};
ghost use Rattle.export_reference.specs.Clauses.{reference_answer, label_answer};

use channel::Code;
use export_answers::WrittenAnswer;
use export_reference::{LabelAnswer, ReferenceAnswer};

#[unsafe(no_mangle)]
pub extern "C" fn cundarivo_read_reference(
    text: &[u8],
    table: &mut [i32],
    codes: &mut [Code],
) -> ReferenceAnswer
    ensures answer { result ≡ reference_answer (reference_read row_limit channel_types text.now (length table.old))
        (length codes.old) }
    ensures table_filled { table.new ≡ filled result.number (result.m * result.n) (values_in (content row_limit channel_types text.now))
        table.old }
    ensures codes_filled { codes.new ≡ filled result.number result.n
        (reference_read row_limit channel_types text.now (length table.old)).codes codes.old }
{
    cundarivo::reference_text::cundarivo_read_reference(text, table, codes)
}

#[unsafe(no_mangle)]
pub extern "C" fn cundarivo_label(text: &[u8], row: usize) -> LabelAnswer
    ensures { result ≡ label_answer (label_part row_limit channel_types text.now row) }
{
    cundarivo::reference_text::cundarivo_label(text, row)
}

#[unsafe(no_mangle)]
pub extern "C" fn cundarivo_write_reference(
    rows: &[i32],
    m: usize,
    n: usize,
    codes: &[Code],
    labels: &[u8],
    ends: &[usize],
    buffer: &mut [u8],
) -> WrittenAnswer
    ensures answer { result ≡ written_in_numbers (reference_written row_limit channel_types
        (lent_table rows.now m n codes.now labels.now ends.now)
        (length buffer.old)) }
    ensures buffer_filled { buffer.new ≡ filled result.number result.length
        (written_text channel_types (lent_text row_limit channel_types
        (lent_table rows.now m n codes.now labels.now ends.now)))
        buffer.old }
{
    cundarivo::reference_text::cundarivo_write_reference(rows, m, n, codes, labels, ends, buffer)
}
