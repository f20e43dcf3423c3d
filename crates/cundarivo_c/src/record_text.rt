// The calls of `cundarivo::record_text`.
ghost use Rattle.std.specs.Prelude.{◌≡◌, length};
ghost use Rattle.limits.specs.Limits.{total, row_limit};
ghost use Rattle.lent.specs.Filled.{filled};
ghost use Rattle.channel.specs.Channel.{channel_types};
ghost use Rattle.record_print.specs.Printed.{record_text};
ghost use Rattle.record_read.specs.Clauses.{record_read};
ghost use Rattle.export_record.specs.Clauses.{envelope_given, read_answer, write_answer};

use channel::Code;
use export_answers::{EnvelopeAnswer, WrittenAnswer};
use export_figures::FiguresGiven;

#[unsafe(no_mangle)]
pub extern "C" fn cundarivo_read_record(
    rows: &[i32],
    m: usize,
    n: usize,
    codes: &[Code],
    text: &[u8],
    scaled_centre: &mut [i64],
    weights: &mut [u32],
) -> EnvelopeAnswer
    ensures answer { result ≡ read_answer (record_read total row_limit channel_types rows.now m n codes.now text.now) m n
        (length scaled_centre.old) (length weights.old) }
    ensures centre_filled { scaled_centre.new ≡ filled result.number n
        (record_read total row_limit channel_types rows.now m n codes.now text.now).envelope.figures.ball.scaled_centre scaled_centre.old }
    ensures weights_filled { weights.new ≡ filled result.number m
        (record_read total row_limit channel_types rows.now m n codes.now text.now).envelope.weights
        weights.old }
{
    cundarivo::record_text::cundarivo_read_record(rows, m, n, codes, text, scaled_centre, weights)
}

#[unsafe(no_mangle)]
pub extern "C" fn cundarivo_write_record(
    figures: FiguresGiven,
    codes: &[Code],
    scaled_centre: &[i64],
    weights: &[u32],
    rows: &[i32],
    m: usize,
    buffer: &mut [u8],
) -> WrittenAnswer
    ensures answer { result ≡ write_answer total row_limit channel_types figures codes.now scaled_centre.now weights.now
        rows.now m (length buffer.old) }
    ensures buffer_filled { buffer.new ≡ filled result.number result.length
        (record_text channel_types (envelope_given row_limit figures codes.now scaled_centre.now weights.now))
        buffer.old }
{
    cundarivo::record_text::cundarivo_write_record(
        figures,
        codes,
        scaled_centre,
        weights,
        rows,
        m,
        buffer,
    )
}
