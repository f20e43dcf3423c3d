// A value field under a range, read: the one place where a written value meets its range, and where one below detection, `<` and a
// number, becomes the number that it reads as. The number is read by one call and held against its range by another: together they are
// too long for the compiler to put them into the loops over the fields.
#![tactic(auto)]

ghost use Rattle.std.specs.Prelude.{◌≤◌, ◌≡◌, pos, nat_abs, length};
ghost use Rattle.integers.specs.Reading.{Bounded};
ghost use Rattle.limits.specs.Limits.{coordinate_limit};
ghost use Rattle.value.specs.Value.{in_range, half};
ghost use Rattle.value.specs.Clauses.{RangeWithin, plain_under, below_under, written_under, WrittenRead};

use channel::Range;
use limits::COORDINATE_MOST;
use number::{Number, plain_number_at};
use text::parts::{Field, past_byte};

const LESS_THAN: u8 = b'<';

// Why a field holds no value.
#[derive(Clone, Copy)]
pub enum Fault {
    Malformed,
    OutOfRange,
}

// The number of a value field, and whether `<` stands before it.
#[derive(Clone, Copy)]
pub struct Written {
    pub below: bool,
    pub number: Option<Number>,
}

// Whether a whole number is within a range.
pub fn in_range(whole: i32, range: Range) -> bool
    ensures { result ≡ in_range range whole }
{
    range.low <= whole && whole <= range.high
}

// A plain number under a range.
fn plain_value(number: Option<Number>, range: Range) -> Result<i32, Fault>
    requires { RangeWithin range }
    ensures { result ≡ plain_under range number }
{
    let Some(plain) = number else {
        return Err(Fault::Malformed);
    };
    if (COORDINATE_MOST as u64) < plain.magnitude {
        return Err(Fault::OutOfRange);
    }
    let size = plain.magnitude as i32;
    let whole = if plain.negative { -size } else { size };
    if in_range(whole, range) {
        Ok(whole)
    } else {
        Err(Fault::OutOfRange)
    }
}

// What `<v` reads as: the whole part of v/2.
fn half(v: u32) -> u32
    requires { v ≤ coordinate_limit }
    ensures { Bounded coordinate_limit result (nat_abs (half (pos v))) }
{
    v / 2
}

// What stands after `<` under a range: a plain number from 1 to the high.
fn below_detection(number: Option<Number>, range: Range) -> Result<i32, Fault>
    requires { RangeWithin range }
    ensures { result ≡ below_under range number }
{
    let detectable = Range {
        low: 1,
        high: range.high,
    };
    let value = plain_value(number, detectable)?;
    Ok(half(value as u32) as i32)
}

// A number under a range, after `<` or by itself.
pub fn written_value(below: bool, number: Option<Number>, range: Range) -> Result<i32, Fault>
    requires { RangeWithin range }
    ensures { result ≡ written_under range below number }
{
    if below {
        below_detection(number, range)
    } else {
        plain_value(number, range)
    }
}

// The field of a line that starts at `at` as a number, after `<` or by itself, and where it ends.
pub fn read_written_at(line: &[u8], at: usize) -> Field<Written>
    requires { at ≤ length line.now }
    ensures { WrittenRead line.now at result.value.below result.value.number result.end }
{
    let below = past_byte(line, at, LESS_THAN);
    let plain = plain_number_at(line, below.next);
    Field {
        value: Written {
            below: below.found,
            number: plain.value,
        },
        end: plain.end,
    }
}
