// The lines of a record after its heading. Each is a word and numbers; a number of at most 19 digits that its place does not hold
// is kept as the largest that it does.
ghost use Rattle.std.specs.Prelude.{◌≡◌, ◌≤◌, length};
ghost use Rattle.limits.specs.Limits.{row_limit};
ghost use Rattle.text.specs.Clauses.{FieldRead};
ghost use Rattle.record_lines.specs.Lines.{result_line, weight_line};
ghost use Rattle.record_lines.specs.Clauses.{held_signed, kept_number, number_field, NumbersRead, CentreRead, result_read, weight_read};

use crate::words::{BUDGET_LETTER, CENTRE_WORD, RESULT_WORD, SETTLED_LETTER, WEIGHT_WORD};
use limits::{BUDGET_MOST, ROWS};
use number::{MAGNITUDE_MOST, Number, plain_number_at};
use text::parts::{Field, field_end, same_bytes};

// the largest i64
const HELD_MOST: u64 = i64::MAX as u64;

// What an `R` line states.
#[derive(Clone, Copy)]
pub struct ResultLine {
    pub scaled_squared_radius: i64,
    pub scaled_lower_bound: i64,
    pub moves: u32,
    pub settled: bool,
}

// What a `W` line states.
#[derive(Clone, Copy)]
pub struct WeightLine {
    pub row: usize,
    pub weight: u32,
}

// A number as an i64 keeps it.
fn held(number: Number) -> i64
    ensures { result ≡ held_signed number.negative number.magnitude }
{
    let kept = number.magnitude.min(HELD_MOST) as i64;
    if number.negative { -kept } else { kept }
}

// What a record keeps of a plain number, if it has at most 19 digits.
fn kept(number: Option<Number>) -> Option<i64>
    ensures { result ≡ kept_number number }
{
    let number = number?;
    if MAGNITUDE_MOST <= number.magnitude {
        return None;
    }
    Some(held(number))
}

// The field of a line that starts at `at` as a number of a record, and where it ends.
fn read_number_at(line: &[u8], at: usize) -> Field<Option<i64>>
    requires { at ≤ length line.now }
    ensures { FieldRead number_field line.now at result.value result.end }
{
    let read = plain_number_at(line, at);
    Field {
        value: kept(read.value),
        end: read.end,
    }
}

// A word and `count` numbers at the start of a line, the numbers put into the lent places. Answers the index after them, if the line
// starts with them.
fn read_numbers(line: &[u8], word: &[u8], count: usize, numbers: &mut [i64]) -> Option<usize>
    requires { count ≤ length numbers.old }
    ensures { NumbersRead word.now count line.now numbers.old numbers.new result }
{
    let word_end = field_end(line, 0);
    if !same_bytes(&line[..word_end], word) {
        return None;
    }
    let mut from = word_end + 1;
    for i in 0..count {
        if line.len() < from {
            return None;
        }
        let read = read_number_at(line, from);
        numbers[i] = read.value?;
        from = read.end + 1;
    }
    Some(from)
}

// Whether a line is a `C` line of n channels, X put into the lent places.
pub fn read_centre(line: &[u8], n: usize, scaled_centre: &mut [i64]) -> bool
    requires { n ≤ length scaled_centre.old }
    ensures { CentreRead n line.now scaled_centre.old scaled_centre.new result }
{
    read_numbers(line, &CENTRE_WORD, n, scaled_centre) == Some(line.len() + 1)
}

pub fn read_result(line: &[u8]) -> Option<ResultLine>
    ensures { result ≡ result_read (result_line line.now) }
{
    let mut numbers = [0i64; 3];
    let next = read_numbers(line, &RESULT_WORD, 3, &mut numbers)?;
    if line.len() < next {
        return None;
    }
    let settled = same_bytes(&line[next..], &SETTLED_LETTER);
    if !settled && !same_bytes(&line[next..], &BUDGET_LETTER) {
        return None;
    }
    let [scaled_squared_radius, scaled_lower_bound, moves] = numbers;
    if moves < 0 || (BUDGET_MOST as i64) < moves {
        return None;
    }
    Some(ResultLine {
        scaled_squared_radius,
        scaled_lower_bound,
        moves: moves as u32,
        settled,
    })
}

// A `W` line past row `last`.
pub fn read_weight(line: &[u8], last: usize) -> Option<WeightLine>
    requires { last ≤ row_limit }
    ensures { result ≡ weight_read (weight_line row_limit last line.now) }
{
    let mut numbers = [0i64; 2];
    let next = read_numbers(line, &WEIGHT_WORD, 2, &mut numbers)?;
    if next != line.len() + 1 {
        return None;
    }
    let [row, weight] = numbers;
    if row <= (last as i64) || (ROWS as i64) < row || weight < 1 {
        return None;
    }
    Some(WeightLine {
        row: row as usize,
        weight: u32::try_from(weight).unwrap_or(u32::MAX),
    })
}
