// Bytes and plain numbers printed into a lent slice from an index on. Each function answers the index after what it printed.
#![tactic(auto)]

ghost use Rattle.std.specs.Prelude.{◌≡◌, ℕ, ◌+◌, ◌*◌, ◌^◌, ◌≤◌, ◌<◌, pos, nat_abs, length, get_or, take};
ghost use Rattle.number.specs.Number.{print_magnitude, print};
ghost use Rattle.number.specs.Clauses.{magnitude_limit};
ghost use Rattle.printing.specs.Clauses.{number_digits, number_room, field_room, numbers_after, print_numbers, Put};

use limits::DISTANCE_DIGITS;
use text::parts::{COMMA, LINE_END};

// the room of a number: a hyphen and as many digits as the largest number that is printed has
pub const NUMBER_ROOM: usize = 1 + DISTANCE_DIGITS;

// the room of a number after a comma
pub const FIELD_ROOM: usize = 1 + NUMBER_ROOM;

const ZERO: u8 = b'0';

const HYPHEN: u8 = b'-';

pub fn put_bytes(out: &mut [u8], at: usize, word: &[u8]) -> usize
    requires { at + length word.now ≤ length out.old }
    ensures { Put word.now out.old at out.new result }
{
    for i in 0..word.len() {
        out[at + i] = word[i];
    }
    at + word.len()
}

// How many digits a number has.
fn width(magnitude: u64) -> usize
    ensures { result ≡ length (print_magnitude magnitude) }
{
    let mut digits = 1;
    let mut rest = magnitude / 10;
    // The step is a division.
    while 0 < rest {
        rest /= 10;
        digits += 1;
    }
    digits
}

// The digits of a number, from the last to the first.
fn put_magnitude(out: &mut [u8], at: usize, magnitude: u64) -> usize
    requires { (magnitude < magnitude_limit) × (at + number_digits ≤ length out.old) }
    ensures { Put (print_magnitude magnitude) out.old at out.new result }
{
    let end = at + width(magnitude);
    let mut rest = magnitude;
    for place in (at..end).rev() {
        out[place] = ZERO + (rest % 10) as u8;
        rest /= 10;
    }
    end
}

pub fn put_number(out: &mut [u8], at: usize, number: i64) -> usize
    requires { (nat_abs number < 2 ^ 63) × (at + number_room ≤ length out.old) }
    ensures { Put (print number) out.old at out.new result }
{
    if number < 0 {
        out[at] = HYPHEN;
        return put_magnitude(out, at + 1, (-number) as u64);
    }
    put_magnitude(out, at, number as u64)
}

// A word and the first `count` numbers, each after a comma.
pub fn put_numbers(out: &mut [u8], at: usize, word: &[u8], numbers: &[i64], count: usize) -> usize
    requires { (count ≤ length numbers.now) × (((k : ℕ) → k < count → nat_abs (get_or numbers.now k (pos 0)) < 2 ^ 63)
        × (at + length word.now + count * field_room ≤ length out.old)) }
    ensures { Put (numbers_after word.now (take count numbers.now)) out.old at out.new result }
{
    let mut from = put_bytes(out, at, word);
    for number in &numbers[..count] {
        out[from] = COMMA;
        from = put_number(out, from + 1, *number);
    }
    from
}

// The same as a line, with its byte 10.
pub fn put_line(out: &mut [u8], at: usize, word: &[u8], numbers: &[i64], count: usize) -> usize
    requires { (count ≤ length numbers.now) × (((k : ℕ) → k < count → nat_abs (get_or numbers.now k (pos 0)) < 2 ^ 63)
        × (at + length word.now + count * field_room < length out.old)) }
    ensures { Put (print_numbers word.now (take count numbers.now)) out.old at out.new result }
{
    let end = put_numbers(out, at, word, numbers, count);
    out[end] = LINE_END;
    end + 1
}
