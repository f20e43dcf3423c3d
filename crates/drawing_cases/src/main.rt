// Runs stored cases of the drawing and the check, which another implementation of document 01 wrote with the answers that are
// owed. tests/outside/src/stored.rs has the form of the input and of the output. What lies past the input reads as 0.
#![tactic(auto)]

ghost use Rattle.std.specs.Prelude.{◌+◌, ◌≤◌, ◌<◌, ◌≡◌, length, take};

use ball::Ball;
use case_io::{byte_at, digest, four_bytes, least, print_number, raised, read_full, two_bytes};
use drawing::Drawing;
use limits::{CENTRE_MOST, CHANNELS, PLACES, ROWS};
use refusal::Refusal;
use std::io::Stdout;

// The most bytes of the input.
const INPUT_MOST: usize = 65_536;

const DRAW: u8 = 0;

const END: u8 = 255;
// The most weights that a stored case lends.
const WEIGHTS: usize = 512;

// The signed number that two bytes hold.
fn signed(bits: u32) -> i32
    requires { bits < 65536 }
{
    if bits < 32768 {
        bits as i32
    } else {
        -((65536 - bits) as i32)
    }
}

// Reads the places that a case lends as rows, and answers how many.
fn read_rows(text: &[u8], at: usize, count: usize, rows: &mut [i32]) -> usize
    requires { (at < 200000) × (count < 65536) }
    ensures { (result ≤ length rows.new) × (result ≡ length (take result rows.new)) }
{
    let end = least(count, rows.len());
    for i in 0..end {
        rows[i] = signed(two_bytes(text, at + 2 * i));
    }
    end
}

// Reads the weights that a case lends, and answers how many.
fn read_weights(text: &[u8], at: usize, count: usize, weights: &mut [u32]) -> usize
    requires { (at < 200000) × (count < 65536) }
    ensures { (result ≤ length weights.new) × (result ≡ length (take result weights.new)) }
{
    let end = least(count, weights.len());
    for i in 0..end {
        weights[i] = four_bytes(text, at + 4 * i);
    }
    end
}

// The sum of place times (X there + limit).
fn centre_digest(centre: &[i64; CHANNELS]) -> u64 {
    digest(centre, |x| raised(x, CENTRE_MOST))
}

// The sum of place times weight.
fn weights_digest(weights: &[u32; ROWS]) -> u64 {
    digest(weights, |weight| weight as u64)
}

// The line of a case.
fn print_line(
    stdout: &Stdout,
    number: u32,
    line: u32,
    ball: Ball,
    moves: u32,
    weights_digest: u64,
) {
    print_number(stdout, number as u64, b',');
    print_number(stdout, line as u64, b',');
    print_number(stdout, ball.settled as u64, b',');
    print_number(stdout, moves as u64, b',');
    print_number(stdout, ball.scaled_squared_radius, b',');
    print_number(stdout, ball.scaled_lower_bound, b',');
    print_number(stdout, centre_digest(&ball.scaled_centre), b',');
    print_number(stdout, weights_digest, b'\n');
}

// The line of a case that is refused: every figure is 0.
fn print_refusal(stdout: &Stdout, refusal: Refusal) {
    print_line(
        stdout,
        refusal.number(),
        refusal.line,
        Ball::default(),
        0,
        0,
    );
}

fn print_drawing(stdout: &Stdout, answer: Result<Drawing, Refusal>) {
    match answer {
        Ok(drawing) => print_line(
            stdout,
            0,
            0,
            drawing.ball,
            drawing.moves,
            weights_digest(&drawing.weights),
        ),
        Err(refusal) => print_refusal(stdout, refusal),
    }
}

fn print_check(stdout: &Stdout, answer: Result<Ball, Refusal>) {
    match answer {
        Ok(ball) => print_line(stdout, 0, 0, ball, 0, 0),
        Err(refusal) => print_refusal(stdout, refusal),
    }
}

// Runs the case at this byte, writes its line, and answers where the next one starts.
fn run_case(stdout: &Stdout, text: &[u8], at: usize) -> usize
    requires { at < 65536 }
    ensures { at < result }
{
    let m = two_bytes(text, at + 1) as usize;
    let n = byte_at(text, at + 3) as usize;
    let budget = four_bytes(text, at + 4);
    let places = two_bytes(text, at + 8) as usize;
    let mut rows = [0i32; PLACES];
    let lent = read_rows(text, at + 10, places, &mut rows);
    let end = at + 10 + 2 * places;
    if byte_at(text, at) == DRAW {
        print_drawing(stdout, drawing::draw(&rows[..lent], m, n, budget));
        return end;
    }
    let count = two_bytes(text, end) as usize;
    let mut weights = [0u32; WEIGHTS];
    let given = read_weights(text, end + 2, count, &mut weights);
    print_check(
        stdout,
        checking::check(&rows[..lent], m, n, &weights[..given]),
    );
    end + 2 + 4 * count
}

fn run_all(stdout: &Stdout, text: &[u8])
    requires { length text.now ≤ 65536 }
{
    let mut at = 0;
    // The step is a case, as long as it says.
    while at < text.len() && text[at] != END {
        at = run_case(stdout, text, at);
    }
}

fn main(rt: HostRuntime) {
    let mut buffer = [0u8; INPUT_MOST];
    let n = read_full(&mut rt.stdin(), &mut buffer);
    run_all(&rt.stdout(), &buffer[..n]);
}
