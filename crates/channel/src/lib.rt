// Document 01, "Channel types": constant tables of code, low and high, and the tags. A type is found by its tag, compared as bytes; its
// range and its tag are found by its code. Code 0 stands for no type. Whoever keeps or compares codes does it by `Code` and the
// functions here. A place of a table is named in each arm of a match: of a table with a computed index all places are written to the stack.
#![tactic(auto)]

ghost use Rattle.std.specs.Prelude.{◌≡◌, ◌≤◌, ◌<◌, length, get_or, take};
ghost use Rattle.text.specs.Parts.{same};
ghost use Rattle.text.specs.Clauses.{FieldRead};
ghost use Rattle.channel.specs.Channel.{channel_types, code_of, tag_of, known, codes_known, house_types, house_count, no_type};
ghost use Rattle.channel.specs.Clauses.{range_of, tag_in, tag_places};
ghost use Rattle.number.specs.Clauses.{above_zero};

use text::parts::{Field, field_end};

// the code of a type: one byte
pub type Code = u8;

const TYPES: usize = 8;

const CODES: [Code; TYPES] = [1, 2, 3, 4, 5, 6, 7, 8];

const LOW: [i32; TYPES] = [0, 0, 0, 0, -200, 0, 0, -2000];

const HIGH: [i32; TYPES] = [2000, 4000, 4000, 4000, 1500, 1400, 4000, 2000];

// The values that a type takes.
#[derive(Clone, Copy)]
pub struct Range {
    pub low: i32,
    pub high: i32,
}

// Whether a code is that of a type.
pub fn is_known(code: Code) -> bool
    ensures { result ≡ known channel_types code }
{
    1 <= code && code <= TYPES as Code
}

// The range of a type, 0 to 0 for a code of no type, as the definition `range_of` has it.
#[tactic(auto, using(crate::proofs::Laws::type_past), unfolding(crate::specs::Channel::type_of, crate::specs::Channel::type_in, crate::specs::Channel::house_types))]
pub fn range_of(code: Code) -> Range
    ensures { result ≡ range_of channel_types code }
{
    match code {
        1 => Range {
            low: LOW[0],
            high: HIGH[0],
        },
        2 => Range {
            low: LOW[1],
            high: HIGH[1],
        },
        3 => Range {
            low: LOW[2],
            high: HIGH[2],
        },
        4 => Range {
            low: LOW[3],
            high: HIGH[3],
        },
        5 => Range {
            low: LOW[4],
            high: HIGH[4],
        },
        6 => Range {
            low: LOW[5],
            high: HIGH[5],
        },
        7 => Range {
            low: LOW[6],
            high: HIGH[6],
        },
        8 => Range {
            low: LOW[7],
            high: HIGH[7],
        },
        _ => Range { low: 0, high: 0 },
    }
}

// The tag of the type at a place.
#[tactic(auto, using(crate::proofs::Laws::place_last), unfolding(crate::specs::Channel::house_types))]
fn tag_at(at: usize) -> &'static [u8]
    requires { at < house_count }
    ensures { result.now ≡ (get_or house_types at no_type).tag }
{
    match at {
        0 => b"TOC",
        1 => b"TC",
        2 => b"IC",
        3 => b"CND",
        4 => b"TMP",
        5 => b"PH",
        6 => b"FLW",
        _ => b"ORP",
    }
}

// The tag of a type, empty for a code of no type, as the definition `tag_of` has it; in three places it is that of `tag_in`.
pub fn tag_of(code: Code) -> &'static [u8]
    ensures tag { result.now ≡ tag_of channel_types code }
    ensures places { tag_places result.now ≡ tag_in channel_types code }
{
    match code {
        1..=8 => tag_at((code - 1) as usize),
        _ => b"",
    }
}

// Whether the field of a line that starts at `at` is the tag of the type with this code, and where it ends.
pub fn read_tag(line: &[u8], at: usize, code: Code) -> Field<bool>
    requires { at ≤ length line.now }
    ensures { FieldRead (same (tag_of channel_types code)) line.now at result.value result.end }
{
    let tag = tag_of(code);
    if !line[at..].starts_with(tag) {
        return Field {
            value: false,
            end: field_end(line, at),
        };
    }
    let next = at + tag.len();
    let end = field_end(line, next);
    Field {
        value: end == next,
        end,
    }
}

// The code of the type with this tag.
pub fn find_tag(field: &[u8]) -> Option<Code>
    ensures { result ≡ above_zero (code_of channel_types field.now) }
{
    for at in 0..TYPES {
        if tag_at(at) == field {
            return Some(CODES[at]);
        }
    }
    None
}

// Whether each of the first n codes is that of a type.
pub fn codes_known(codes: &[Code], n: usize) -> bool
    requires { n ≤ length codes.now }
    ensures { result ≡ codes_known channel_types (take n codes.now) }
{
    for code in &codes[..n] {
        if !is_known(*code) {
            return false;
        }
    }
    true
}

// Whether two lists of codes are the same.
pub fn same_codes(a: &[Code], b: &[Code]) -> bool
    ensures { result ≡ same a.now b.now }
{
    text::parts::same_bytes(a, b)
}
