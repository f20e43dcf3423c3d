#![tactic(auto)]
// The text of a record (document 01, "Texts"), printed line by line into a lent slice that has room for the longest. The words and
// letters are those that the reader compares with.
ghost use Rattle.std.specs.Prelude.{[], ◌∷◌, ◌++◌, ℕ, ◌+◌, ◌*◌, ◌^◌, ◌≤◌, ◌<◌, pos, nat_abs, length, get_or, take};
ghost use Rattle.limits.specs.Limits.{row_limit};
ghost use Rattle.text.specs.Parts.{line_end};
ghost use Rattle.printing.specs.Clauses.{Put};
ghost use Rattle.channel.specs.Channel.{channel_types};
ghost use Rattle.record_lines.specs.Lines.{centre_word, weight_word, print_centre, print_result, print_weight};
ghost use Rattle.record_form.specs.Record.{print_record};
ghost use Rattle.record_print.specs.Printed.{result_for, record_of};
ghost use Rattle.record_print.specs.Clauses.{weight_lines, numbers_room, result_room, record_room, Printing};

use envelope::Figures;
use heading::put_heading;
use printing::{put_bytes, put_line, put_numbers};
use record_lines::words::{
    BUDGET_LETTER, CENTRE_WORD, RECORD_WORD, RESULT_WORD, SETTLED_LETTER, WEIGHT_WORD,
};
use text::parts::{COMMA, LINE_END};

// `C` and X, with its byte 10.
fn put_centre(out: &mut [u8], at: usize, scaled_centre: &[i64], n: usize) -> usize
    requires { (n ≤ length scaled_centre.now) × (((k : ℕ) → k < n → nat_abs (get_or scaled_centre.now k (pos 0)) < 2 ^ 63)
        × (at + numbers_room centre_word n ≤ length out.old)) }
    ensures { Put (print_centre (take n scaled_centre.now) ++ (line_end ∷ [])) out.old at out.new result }
{
    put_line(out, at, &CENTRE_WORD, scaled_centre, n)
}

// `R`, M, L, moves and the letter, with its byte 10.
fn put_result(
    out: &mut [u8],
    at: usize,
    scaled_squared_radius: u64,
    scaled_lower_bound: u64,
    moves: u32,
    settled: bool,
) -> usize
    requires { (scaled_squared_radius < 2 ^ 63) × ((scaled_lower_bound < 2 ^ 63) × (at + result_room ≤ length out.old)) }
    ensures { Put (print_result (result_for scaled_squared_radius scaled_lower_bound moves settled) ++ (line_end ∷ [])) out.old at
        out.new result }
{
    let numbers = [
        scaled_squared_radius as i64,
        scaled_lower_bound as i64,
        moves as i64,
    ];
    let end = put_numbers(out, at, &RESULT_WORD, &numbers, 3);
    out[end] = COMMA;
    let letter = if settled {
        SETTLED_LETTER
    } else {
        BUDGET_LETTER
    };
    let next = put_bytes(out, end + 1, &letter);
    out[next] = LINE_END;
    next + 1
}

// `W`, row and weight, with its byte 10.
fn put_weight(out: &mut [u8], at: usize, row: usize, weight: u32) -> usize
    requires { (row ≤ row_limit) × (at + numbers_room weight_word 2 ≤ length out.old) }
    ensures { Put (print_weight (record { row = row; weight = weight }) ++ (line_end ∷ [])) out.old at out.new result }
{
    let numbers = [row as i64, weight as i64];
    put_line(out, at, &WEIGHT_WORD, &numbers, 2)
}

// The `W` lines of the weights above 0.
fn put_weights(out: &mut [u8], at: usize, weights: &[u32]) -> usize
    requires { (length weights.now ≤ row_limit) × (at + length weights.now * numbers_room weight_word 2 ≤ length out.old) }
    ensures { Put (weight_lines weights.now) out.old at out.new result }
{
    let mut from = at;
    for (i, weight) in weights.iter().enumerate() {
        if *weight != 0 {
            from = put_weight(out, from, i + 1, *weight);
        }
    }
    from
}

// Prints the record of an envelope at the start of a lent slice, and answers its length.
pub fn print_record(figures: Figures, weights: &[u32], out: &mut [u8]) -> usize
    requires { Printing figures weights.now × (record_room (length weights.now) ≤ length out.old) }
    ensures { Put (print_record channel_types (record_of figures weights.now)) out.old 0 out.new result }
{
    let n = figures.n;
    let codes = figures.codes;
    let ball = figures.ball;
    let scaled_centre = ball.scaled_centre;
    let heading_end = put_heading(out, 0, &RECORD_WORD, &codes, n);
    out[heading_end] = LINE_END;
    let centre_end = put_centre(out, heading_end + 1, &scaled_centre, n);
    let result_end = put_result(
        out,
        centre_end,
        ball.scaled_squared_radius,
        ball.scaled_lower_bound,
        figures.moves,
        ball.settled,
    );
    put_weights(out, result_end, weights)
}
