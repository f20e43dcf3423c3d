// A reading's line: a label, then tag and value n times. What its tags and its ranges say counts once every field is in form: 3
// stands before 10 and 10 before 4, wherever in the line they are.
#![tactic(auto)]

ghost use Rattle.std.specs.Prelude.{◌≡◌, true, ◌≤◌, length, take};
ghost use Rattle.text.specs.Parts.{comma, parts_from};
ghost use Rattle.channel.specs.Channel.{channel_types, codes_known};
ghost use Rattle.reading_line.specs.Clauses.{line_of, PairsRead, LineRead};

use channel::Code;
use label::label_field;
use text::parts::line_end;
use value::{read_written_at, written_value};

// What a line is that is no reading within every range: not in form, in form with a tag that is not the envelope's, or in form and of its
// tags with a value outside its range.
#[derive(Clone, Copy)]
pub enum Fault {
    Malformed,
    TagDiffers,
    OutOfRange,
}

// Exactly n pairs of tag and value from `at` on, each under its type, the values put into the lent places.
fn read_pairs(
    line: &[u8],
    at: usize,
    codes: &[Code],
    n: usize,
    places: &mut [i32],
) -> Result<(), Fault>
    requires { (n ≤ length codes.now) × (n ≤ length places.old) }
    ensures { PairsRead channel_types (take n codes.now) (parts_from comma line.now at) places.old
        places.new (line_of result) }
{
    let mut from = at;
    let mut tags_agree = true;
    let mut out_of_range = false;
    for i in 0..n {
        if line.len() < from {
            return Err(Fault::Malformed);
        }
        let code = codes[i];
        let tag = channel::read_tag(line, from, code);
        if line.len() == tag.end {
            return Err(Fault::Malformed);
        }
        tags_agree = tag.value & tags_agree;
        let value_at = tag.end + 1;
        let range = channel::range_of(code);
        let field = read_written_at(line, value_at);
        let written = field.value;
        match written_value(written.below, written.number, range) {
            Ok(whole) => places[i] = whole,
            Err(value::Fault::Malformed) => return Err(Fault::Malformed),
            Err(value::Fault::OutOfRange) => out_of_range = true,
        }
        from = field.end + 1;
    }
    if from <= line.len() {
        return Err(Fault::Malformed);
    }
    if !tags_agree {
        return Err(Fault::TagDiffers);
    }
    if out_of_range {
        return Err(Fault::OutOfRange);
    }
    Ok(())
}

// What stands before a text's last byte 10 as a reading of n channels, its values put into the lent places. A byte 10 in it is no
// part of a label or of a value, nor of any channel's tag: where every tag is the channel's there is none.
pub fn read_line(line: &[u8], codes: &[Code], n: usize, places: &mut [i32]) -> Result<(), Fault>
    requires { (codes_known channel_types (take n codes.now) ≡ true) × ((n ≤ length codes.now) × (n ≤ length places.old)) }
    ensures { LineRead channel_types (take n codes.now) line.now places.old places.new (line_of result) }
{
    let label = label_field(line);
    let Some(_) = label.value else {
        return Err(Fault::Malformed);
    };
    let Err(fault) = read_pairs(line, label.end + 1, codes, n, places) else {
        return Ok(());
    };
    match fault {
        Fault::TagDiffers => {
            if line_end(line, 0) < line.len() {
                Err(Fault::Malformed)
            } else {
                Err(fault)
            }
        }
        _ => Err(fault),
    }
}
