// The heading of a reference text or a record: a word, n and n tags.
#![tactic(auto)]

ghost use Rattle.std.specs.Prelude.{◌≡◌, ◌+◌, ◌≤◌, length, take};
ghost use Rattle.limits.specs.Limits.{channel_limit, tag_limit};
ghost use Rattle.text.specs.Parts.{comma, parts_from};
ghost use Rattle.printing.specs.Clauses.{Put};
ghost use Rattle.channel.specs.Channel.{channel_types, tag_of};
ghost use Rattle.heading.specs.Heading.{heading_of, print_heading};
ghost use Rattle.heading.specs.Clauses.{heading_read, tags_read, heading_room};

use channel::Code;
use limits::CHANNELS;
use number::plain_count;
use printing::{put_bytes, put_numbers};
use text::parts::{COMMA, field_end, same_bytes};

// The codes of a heading's n channels.
#[derive(Clone, Copy)]
pub struct Heading {
    pub n: usize,
    pub codes: [Code; CHANNELS],
}

// The codes of exactly n tags from `at` on.
fn read_tags(line: &[u8], at: usize, n: usize) -> Option<Heading>
    requires { n ≤ channel_limit }
    ensures { result ≡ tags_read channel_types n (parts_from comma line.now at) }
{
    let mut codes = [0 as Code; CHANNELS];
    let mut from = at;
    for i in 0..n {
        if line.len() < from {
            return None;
        }
        let end = field_end(line, from);
        let code = channel::find_tag(&line[from..end])?;
        codes[i] = code;
        from = end + 1;
    }
    if from <= line.len() {
        return None;
    }
    Some(Heading { n, codes })
}

// What a line without its byte 10 gives as a heading with this word.
pub fn read_heading(line: &[u8], word: &[u8]) -> Option<Heading>
    ensures { result ≡ heading_read (heading_of word.now channel_limit channel_types line.now) }
{
    let word_end = field_end(line, 0);
    let at = word_end + 1;
    if !same_bytes(&line[..word_end], word) || line.len() < at {
        return None;
    }
    let count_end = field_end(line, at);
    let n = plain_count(&line[at..count_end], CHANNELS as u32)?;
    read_tags(line, count_end + 1, n as usize)
}

// The tag of a code. Answers the index after it.
pub fn put_tag(out: &mut [u8], at: usize, code: Code) -> usize
    requires { at + tag_limit ≤ length out.old }
    ensures { Put (tag_of channel_types code) out.old at out.new result }
{
    put_bytes(out, at, channel::tag_of(code))
}

// The heading with this word and the first n codes, printed into a lent slice. Answers the index after it.
pub fn put_heading(out: &mut [u8], at: usize, word: &[u8], codes: &[Code], n: usize) -> usize
    requires { (n ≤ channel_limit) × ((n ≤ length codes.now) × (at + heading_room word.now n ≤ length out.old)) }
    ensures { Put (print_heading word.now channel_types (take n codes.now)) out.old at out.new result }
{
    let count = [n as i64];
    let mut from = put_numbers(out, at, word, &count, 1);
    for code in &codes[..n] {
        out[from] = COMMA;
        from = put_tag(out, from + 1, *code);
    }
    from
}
