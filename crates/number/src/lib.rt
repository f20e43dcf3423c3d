// Plain numbers of any length, as a sign and a magnitude that stops at 10^19, so that a number of a thousand digits is in form
// and out of every range, and one of at most 19 digits is told from a longer one.
#![tactic(auto)]

ghost use Rattle.std.specs.Prelude.{◌≡◌, ◌≤◌, length};
ghost use Rattle.text.specs.Clauses.{FieldRead};
ghost use Rattle.number.specs.Number.{digit_zero, digit_nine, is_digit};
ghost use Rattle.number.specs.Clauses.{magnitude_limit, grown, LeadingDigits, unsigned_field, with_sign, plain_field, count_field};

use text::parts::{Field, field_end, past_byte};

// 10^19: the least number of more than 19 digits
pub const MAGNITUDE_MOST: u64 = 10_000_000_000_000_000_000;

// below it, one more digit stays below that
const GROWS_BELOW: u64 = MAGNITUDE_MOST / 10;

const ZERO: u8 = b'0';

const NINE: u8 = b'9';

const HYPHEN: u8 = b'-';

// A plain number.
#[derive(Clone, Copy)]
pub struct Number {
    pub negative: bool,
    pub magnitude: u64,
}

// The magnitude with one more digit.
fn with_digit(magnitude: u64, byte: u8) -> u64
    requires { (magnitude ≤ magnitude_limit) × (digit_zero ≤ byte) × (byte ≤ digit_nine) }
    ensures { result ≡ grown magnitude byte }
{
    if magnitude < GROWS_BELOW {
        magnitude * 10 + (byte - ZERO) as u64
    } else {
        MAGNITUDE_MOST
    }
}

// Whether a byte is that of a digit.
fn is_digit(byte: u8) -> bool
    ensures { result ≡ is_digit byte }
{
    matches!(byte, ZERO..=NINE)
}

// The digits that stand from `at` on, as a number, up to the index after them.
fn leading_digits(line: &[u8], at: usize) -> Field<u64>
    requires { at ≤ length line.now }
    ensures { LeadingDigits line.now at result.value result.end }
{
    let mut magnitude: u64 = 0;
    for i in at..line.len() {
        let byte = line[i];
        if !is_digit(byte) {
            return Field {
                value: magnitude,
                end: i,
            };
        }
        magnitude = with_digit(magnitude, byte);
    }
    Field {
        value: magnitude,
        end: line.len(),
    }
}

// The field of a line that starts at `at` as a number without a sign: digits without a leading zero.
fn unsigned_at(line: &[u8], at: usize) -> Field<Option<u64>>
    requires { at ≤ length line.now }
    ensures { FieldRead unsigned_field line.now at result.value result.end }
{
    let digits = leading_digits(line, at);
    let end = field_end(line, digits.end);
    let malformed = Field { value: None, end };
    if digits.end != end || at == end {
        return malformed;
    }
    if at + 1 < end && line[at] == ZERO {
        return malformed;
    }
    Field {
        value: Some(digits.value),
        end,
    }
}

// The number with this sign: none is `-0`.
fn with_sign(negative: bool, whole: Option<u64>) -> Option<Number>
    ensures { result ≡ with_sign negative whole }
{
    let magnitude = whole?;
    if negative && magnitude == 0 {
        return None;
    }
    Some(Number {
        negative,
        magnitude,
    })
}

// The field of a line that starts at `at` as a plain number, and where it ends.
pub fn plain_number_at(line: &[u8], at: usize) -> Field<Option<Number>>
    requires { at ≤ length line.now }
    ensures { FieldRead plain_field line.now at result.value result.end }
{
    let sign = past_byte(line, at, HYPHEN);
    let unsigned = unsigned_at(line, sign.next);
    Field {
        value: with_sign(sign.found, unsigned.value),
        end: unsigned.end,
    }
}

// A field as a plain number: no comma stands in one.
pub fn plain_number(field: &[u8]) -> Option<Number>
    ensures { result ≡ plain_field field.now }
{
    let read = plain_number_at(field, 0);
    if read.end < field.len() {
        return None;
    }
    read.value
}

// A field as a plain number from 1 to `most`.
pub fn plain_count(field: &[u8], most: u32) -> Option<u32>
    ensures { result ≡ count_field most field.now }
{
    let number = plain_number(field)?;
    let within = 1 <= number.magnitude && number.magnitude <= most as u64;
    if number.negative || !within {
        return None;
    }
    Some(number.magnitude as u32)
}
