// The programs for C and Rust: each call takes the texts of a program, each as a slice of its own, and hands out its whole output, the
// line of a refused text included, with its answer in numbers.
#![tactic(auto)]

ghost use Rattle.std.specs.Prelude.{◌≡◌, length};
ghost use Rattle.limits.specs.Limits.{total, row_limit};
ghost use Rattle.lent.specs.Filled.{filled};
ghost use Rattle.channel.specs.Channel.{channel_types};
ghost use Rattle.lent.specs.Clauses.{text_written};
ghost use Rattle.program_draw.specs.Output.{draw_output};
ghost use Rattle.program_verify.specs.Output.{verify_output};
ghost use Rattle.program_panel.specs.Output.{panel_output};
ghost use Rattle.program_judge.specs.Output.{judge_output};
ghost use Rattle.program_alerts.specs.Output.{alerts_output};
ghost use Rattle.program_plain.specs.Output.{plain_output};
ghost use Rattle.export_answers.specs.Clauses.{written_in_numbers};

use export_answers::WrittenAnswer;

// The program `draw`: the record of the drawing of a reference text's rows. Where the output fits, it fills the first `length` places
// of `output` and no other. Refused, with `output` as it was: 13.
pub fn draw(reference: &[u8], output: &mut [u8]) -> WrittenAnswer
    ensures answer { result ≡ written_in_numbers (text_written (draw_output total row_limit channel_types reference.now)
        (length output.old)) }
    ensures output_filled { output.new ≡ filled result.number result.length
        (draw_output total row_limit channel_types reference.now) output.old }
{
    program_draw::draw(reference, output).into()
}

// The program `verify`: whether a record agrees with a reference text. Output and refusal as for `draw`.
pub fn verify(reference: &[u8], record_text: &[u8], output: &mut [u8]) -> WrittenAnswer
    ensures answer { result ≡ written_in_numbers (text_written (verify_output total row_limit channel_types reference.now record_text.now)
        (length output.old)) }
    ensures output_filled { output.new ≡ filled result.number result.length
        (verify_output total row_limit channel_types reference.now record_text.now) output.old }
{
    program_verify::verify(reference, record_text, output).into()
}

// The program `judge`: the verdict on each reading, against a record that agrees with a reference text. Output and refusal as for `draw`.
pub fn judge(
    reference: &[u8],
    record_text: &[u8],
    readings: &[u8],
    output: &mut [u8],
) -> WrittenAnswer
    ensures answer { result ≡ written_in_numbers (text_written (judge_output total row_limit channel_types reference.now record_text.now readings.now)
        (length output.old)) }
    ensures output_filled { output.new ≡ filled result.number result.length
        (judge_output total row_limit channel_types reference.now record_text.now readings.now) output.old }
{
    program_judge::judge(reference, record_text, readings, output).into()
}

// The program `alerts`: settings tried on readings, against a record that agrees with a reference text. Output and refusal as for `draw`.
pub fn alerts(
    reference: &[u8],
    record_text: &[u8],
    settings_text: &[u8],
    readings: &[u8],
    output: &mut [u8],
) -> WrittenAnswer
    ensures answer { result ≡ written_in_numbers (text_written (alerts_output total row_limit channel_types reference.now record_text.now
        settings_text.now readings.now) (length output.old)) }
    ensures output_filled { output.new ≡ filled result.number result.length
        (alerts_output total row_limit channel_types reference.now record_text.now settings_text.now
        readings.now) output.old }
{
    program_alerts::alerts(reference, record_text, settings_text, readings, output).into()
}

// The program `panel`: the centre of a record that agrees with a reference text, in whole steps. Output and refusal as for `draw`.
pub fn panel(reference: &[u8], record_text: &[u8], output: &mut [u8]) -> WrittenAnswer
    ensures answer { result ≡ written_in_numbers (text_written (panel_output total row_limit channel_types reference.now record_text.now)
        (length output.old)) }
    ensures output_filled { output.new ≡ filled result.number result.length
        (panel_output total row_limit channel_types reference.now record_text.now) output.old }
{
    program_panel::panel(reference, record_text, output).into()
}

// The program `plain`: a reference text with each value plain. Output and refusal as for `draw`.
pub fn plain(reference: &[u8], output: &mut [u8]) -> WrittenAnswer
    ensures answer { result ≡ written_in_numbers (text_written (plain_output row_limit channel_types reference.now)
        (length output.old)) }
    ensures output_filled { output.new ≡ filled result.number result.length
        (plain_output row_limit channel_types reference.now) output.old }
{
    program_plain::plain(reference, output).into()
}
