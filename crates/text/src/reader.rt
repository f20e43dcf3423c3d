// The reader of a text. Its functions take it apart, and a function of the text and the index does the work.
ghost use Rattle.std.specs.Prelude.{◌≡◌, ◌≤◌, length};
ghost use Rattle.text.specs.Parts.{line_end};
ghost use Rattle.text.specs.Clauses.{PartEnd};

use crate::blocks::part_end;
use crate::parts::LINE_END;

// A walk over a text: the lent text beside the byte that it has reached.
#[derive(Drop)]
pub struct Reader<'a> {
    text: &'a [u8],
    at: usize,
}

// Where the line that starts at `at` ends: at its byte 10, or at the end of the text where it has none.
fn find_line_end(text: &[u8], at: usize) -> usize
    requires { at ≤ length text.now }
    ensures { PartEnd line_end text.now at result }
{
    part_end(text, at, LINE_END)
}

impl<'a> Reader<'a> {
    // The walk that has reached the byte at the index `at`.
    pub fn new(text: &'a [u8], at: usize) -> Reader<'a>
        ensures { (result.text ≡ text.entry) × (result.at ≡ at) }
    {
        Reader { text, at }
    }

    // Where the line that starts at the byte reached ends.
    pub fn line_end(self) -> usize
        requires { self.at ≤ length self.text.now }
        ensures { PartEnd line_end self.entry.text.now self.entry.at result }
    {
        find_line_end(self.text, self.at)
    }
}
