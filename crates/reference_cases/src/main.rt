// Runs stored reference texts, which another implementation of document 01 wrote with the answers that are owed.
// tests/outside/src/stored_texts.rs has the form of the input and of the output. The trial figures without a star come first:
// TOC 2000 is read, 2001 gives 4, the 256th row is read.
#![tactic(auto)]

ghost use Rattle.std.specs.Prelude.{◌+◌, ◌≤◌, ◌<◌, length};

use case_io::{byte_at, digest, least, print_number, raised, read_full, two_bytes};
use channel::Code;
use limits::{CHANNELS, COORDINATE_MOST, PLACES};
use reference::read::{Reference, read};
use reference_label::{Part, label_part};
use refusal::Refusal;
use std::io::Stdout;

// The most bytes of the input.
const INPUT_MOST: usize = 200_000;

// What stands in a place of the table before a call. No value reads as this.
const UNTOUCHED: i32 = -COORDINATE_MOST;

// What is added to a number of the table.
const RAISED_BY: i64 = COORDINATE_MOST as i64;

// The sum of place times (number there + RAISED_BY).
fn table_digest(table: &[i32; PLACES]) -> u64 {
    digest(table, |number| raised(number as i64, RAISED_BY))
}

// The sum of place times code.
fn codes_digest(codes: &[Code; CHANNELS]) -> u64 {
    digest(codes, |code| code as u64)
}

// The line of a case: what the text holds is 0 where it is refused, and so is where a label stands where there is none.
fn print_line(
    stdout: &Stdout,
    answer: &Result<Reference, Refusal>,
    table: u64,
    label: Option<Part>,
) {
    let (m, n, codes) = match answer {
        Ok(reference) => (reference.m, reference.n, codes_digest(&reference.codes)),
        Err(_) => (0, 0, 0),
    };
    let (start, length) = match label {
        Some(part) => (part.start, part.length),
        None => (0, 0),
    };
    print_number(stdout, refusal::number_of(answer) as u64, b',');
    print_number(stdout, refusal::line_of(answer) as u64, b',');
    print_number(stdout, m as u64, b',');
    print_number(stdout, n as u64, b',');
    print_number(stdout, table, b',');
    print_number(stdout, codes, b',');
    print_number(stdout, start as u64, b',');
    print_number(stdout, length as u64, b'\n');
}

// Reads a text into so many places of a table, writes the line of the case, and looks up the label of the last row, or of the
// first where the text is refused.
fn run_text(stdout: &Stdout, text: &[u8], places: usize) {
    let mut table = [UNTOUCHED; PLACES];
    let lent = least(places, PLACES);
    let answer = read(text, &mut table[..lent]);
    let row = match &answer {
        Ok(reference) => reference.m,
        Err(_) => 1,
    };
    print_line(stdout, &answer, table_digest(&table), label_part(text, row));
}

// Runs the case at this byte and answers where the next one starts.
fn run_case(stdout: &Stdout, input: &[u8], at: usize) -> usize
    requires { (at < length input.now) × (length input.now ≤ 200000) }
    ensures { at < result }
{
    let stated = two_bytes(input, at) as usize + 65536 * (byte_at(input, at + 2) as usize);
    let places = two_bytes(input, at + 3) as usize;
    let start = at + 5;
    if input.len() < start {
        return start;
    }
    let rest = &input[start..];
    let length = least(stated, rest.len());
    run_text(stdout, &rest[..length], places);
    start + stated
}

fn run_all(stdout: &Stdout, input: &[u8])
    requires { length input.now ≤ 200000 }
{
    let mut at = 0;
    // The step is a case, as long as it says.
    while at < input.len() {
        at = run_case(stdout, input, at);
    }
}

fn main(rt: HostRuntime) {
    let mut buffer = [0u8; INPUT_MOST];
    let n = read_full(&mut rt.stdin(), &mut buffer);
    run_all(&rt.stdout(), &buffer[..n]);
}
