// The lines that the programs print. A refused text is answered by a line `NO`, number, line.
#![tactic(auto)]

ghost use Rattle.std.specs.Prelude.{◌+◌, ◌^◌, ◌≤◌, ◌<◌, length};
ghost use Rattle.printing.specs.Clauses.{Put};
ghost use Rattle.reading.specs.Verdict.{verdict_excess, verdict_outcome};
ghost use Rattle.program_lines.specs.Lines.{print_refusal, print_verdict};
ghost use Rattle.program_lines.specs.Clauses.{answer_room};

use printing::{FIELD_ROOM, put_line};
use reading::Verdict;
use refusal::Refusal;

// room for a line of `NO`, or of a verdict: a word, which is not longer than a number and its comma may be, two numbers and byte 10
pub const ANSWER_ROOM: usize = 3 * FIELD_ROOM + 1;

pub const REFUSAL_WORD_BYTES: usize = 2;

const REFUSAL_WORD: [u8; REFUSAL_WORD_BYTES] = *b"NO";

const QUIET_WORD: [u8; 5] = *b"QUIET";

const ALARM_WORD: [u8; 5] = *b"ALARM";

// Prints a refusal from index `at` on, and answers the index after it.
pub fn put_refusal(out: &mut [u8], at: usize, number: u32, line: u32) -> usize
    requires { at + answer_room ≤ length out.old }
    ensures room { result ≤ at + answer_room }
    ensures line { Put (print_refusal number line) out.old at out.new result }
{
    let numbers = [number as i64, line as i64];
    put_line(out, at, &REFUSAL_WORD, &numbers, 2)
}

// Prints a verdict, or the refusal of a reading, in the same way.
pub fn put_verdict(out: &mut [u8], at: usize, verdict: Result<Verdict, Refusal>) -> usize
    requires { (verdict_excess (verdict_outcome verdict) < 2 ^ 63) × (at + answer_room ≤ length out.old) }
    ensures { Put (print_verdict (verdict_outcome verdict)) out.old at out.new result }
{
    match verdict {
        Ok(found) => match found {
            Verdict::Quiet => put_line(out, at, &QUIET_WORD, &[], 0),
            Verdict::Alarm(excess) => put_line(out, at, &ALARM_WORD, &[excess as i64], 1),
        },
        Err(refusal) => put_refusal(out, at, refusal.number(), refusal.line),
    }
}
