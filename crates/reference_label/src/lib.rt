// The label of a row of a reference text.
#![tactic(auto)]

ghost use Rattle.std.specs.Prelude.{◌≡◌, ◌+◌, take, drop};
ghost use Rattle.limits.specs.Limits.{row_limit};
ghost use Rattle.channel.specs.Channel.{channel_types};
ghost use Rattle.reference_label.specs.Clauses.{label_part, part_found, part_of};

use limits::{PLACES, ROWS};
use reference::read::parse;
use text::parts::field_end;

// A part of a text.
#[derive(Clone, Copy)]
pub struct Part {
    pub start: usize,
    pub length: usize,
}

// Where the label of a row, counted from 1, stands in a reference text. Nowhere where the text is refused, 7 not tested, or has no such
// row.
pub fn label_part(text: &[u8], row: usize) -> Option<Part>
    ensures part { part_of result ≡ label_part row_limit channel_types text.now row }
    ensures found { result ≡ part_found (label_part row_limit channel_types text.now row) }
{
    let mut values = [0i32; PLACES];
    let mut starts = [0usize; ROWS];
    let Ok(reference) = parse(text, &mut values, &mut starts) else {
        return None;
    };
    if row == 0 || reference.m < row {
        return None;
    }
    let start = starts[row - 1];
    let end = field_end(text, start);
    Some(Part {
        start,
        length: end - start,
    })
}

// The label of a row as that part of the text, no bytes where there is none.
pub fn label(text: &[u8], row: usize) -> &[u8]
    ensures place { (result.ref_ptr.0 ≡ text.entry.ref_ptr.0)
        × (result.ref_ptr.1 ≡ text.entry.ref_ptr.1 + (label_part row_limit channel_types text.now row).start) }
    ensures bytes { result.now ≡ take (label_part row_limit channel_types text.now row).length
        (drop (label_part row_limit channel_types text.now row).start text.now) }
{
    match label_part(text, row) {
        Some(Part { start, length }) => &text[start..start + length],
        None => &text[..0],
    }
}
