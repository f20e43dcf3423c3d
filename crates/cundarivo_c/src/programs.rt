// The calls of `cundarivo::programs`.
ghost use Rattle.std.specs.Prelude.{◌≡◌, length};
ghost use Rattle.limits.specs.Limits.{total, row_limit};
ghost use Rattle.lent.specs.Filled.{filled};
ghost use Rattle.channel.specs.Channel.{channel_types};
ghost use Rattle.lent.specs.Clauses.{text_written};
ghost use Rattle.program_draw.specs.Output.{draw_output};
ghost use Rattle.program_verify.specs.Output.{verify_output};
ghost use Rattle.program_panel.specs.Output.{panel_output};
ghost use Rattle.program_judge.specs.Output.{judge_output};
ghost use Rattle.program_alerts.specs.Output.{alerts_output};
ghost use Rattle.program_plain.specs.Output.{plain_output};
ghost use Rattle.export_answers.specs.Clauses.{written_in_numbers};

use export_answers::WrittenAnswer;

#[unsafe(no_mangle)]
pub extern "C" fn cundarivo_program_draw(reference: &[u8], output: &mut [u8]) -> WrittenAnswer
    ensures answer { result ≡ written_in_numbers (text_written (draw_output total row_limit channel_types reference.now)
        (length output.old)) }
    ensures output_filled { output.new ≡ filled result.number result.length
        (draw_output total row_limit channel_types reference.now) output.old }
{
    cundarivo::programs::cundarivo_program_draw(reference, output)
}

#[unsafe(no_mangle)]
pub extern "C" fn cundarivo_program_verify(
    reference: &[u8],
    record_text: &[u8],
    output: &mut [u8],
) -> WrittenAnswer
    ensures answer { result ≡ written_in_numbers (text_written (verify_output total row_limit channel_types reference.now record_text.now)
        (length output.old)) }
    ensures output_filled { output.new ≡ filled result.number result.length
        (verify_output total row_limit channel_types reference.now record_text.now) output.old }
{
    cundarivo::programs::cundarivo_program_verify(reference, record_text, output)
}

#[unsafe(no_mangle)]
pub extern "C" fn cundarivo_program_judge(
    reference: &[u8],
    record_text: &[u8],
    readings: &[u8],
    output: &mut [u8],
) -> WrittenAnswer
    ensures answer { result ≡ written_in_numbers (text_written (judge_output total row_limit channel_types reference.now record_text.now readings.now)
        (length output.old)) }
    ensures output_filled { output.new ≡ filled result.number result.length
        (judge_output total row_limit channel_types reference.now record_text.now readings.now) output.old }
{
    cundarivo::programs::cundarivo_program_judge(reference, record_text, readings, output)
}

#[unsafe(no_mangle)]
pub extern "C" fn cundarivo_program_alerts(
    reference: &[u8],
    record_text: &[u8],
    settings_text: &[u8],
    readings: &[u8],
    output: &mut [u8],
) -> WrittenAnswer
    ensures answer { result ≡ written_in_numbers (text_written (alerts_output total row_limit channel_types reference.now record_text.now
        settings_text.now readings.now) (length output.old)) }
    ensures output_filled { output.new ≡ filled result.number result.length
        (alerts_output total row_limit channel_types reference.now record_text.now settings_text.now
        readings.now) output.old }
{
    cundarivo::programs::cundarivo_program_alerts(
        reference,
        record_text,
        settings_text,
        readings,
        output,
    )
}

#[unsafe(no_mangle)]
pub extern "C" fn cundarivo_program_panel(
    reference: &[u8],
    record_text: &[u8],
    output: &mut [u8],
) -> WrittenAnswer
    ensures answer { result ≡ written_in_numbers (text_written (panel_output total row_limit channel_types reference.now record_text.now)
        (length output.old)) }
    ensures output_filled { output.new ≡ filled result.number result.length
        (panel_output total row_limit channel_types reference.now record_text.now) output.old }
{
    cundarivo::programs::cundarivo_program_panel(reference, record_text, output)
}

#[unsafe(no_mangle)]
pub extern "C" fn cundarivo_program_plain(reference: &[u8], output: &mut [u8]) -> WrittenAnswer
    ensures answer { result ≡ written_in_numbers (text_written (plain_output row_limit channel_types reference.now)
        (length output.old)) }
    ensures output_filled { output.new ≡ filled result.number result.length
        (plain_output row_limit channel_types reference.now) output.old }
{
    cundarivo::programs::cundarivo_program_plain(reference, output)
}
