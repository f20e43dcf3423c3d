// What is handed out to lent memory: a text to a buffer, and places to slices, each whole or not at all. Where a call is refused,
// nothing is written.
#![tactic(auto)]

ghost use Rattle.std.specs.Prelude.{◌≤◌, ◌≡◌, length};
ghost use Rattle.refusal.specs.Outcome.{number_of, outcome_of};
ghost use Rattle.lent.specs.Filled.{filled};
ghost use Rattle.lent.specs.Clauses.{Part, text_outcome, text_written};

use refusal::{Kind, Refusal};

// Copies the first `count` places of the source to those of the lent slice.
pub fn fill<T: Copy>(lent: &mut [T], source: &[T], count: usize)
    requires { (count ≤ length lent.old) × (count ≤ length source.now) }
    ensures { lent.new ≡ filled 0 count source.now lent.old }
{
    lent[..count].copy_from_slice(&source[..count]);
}

// Writes a text to the first places of the buffer, and to no other, and answers its length. Refused, with the buffer as it was: 13.
pub fn hand_out(text: &[u8], buffer: &mut [u8]) -> Result<usize, Refusal>
    ensures answer { text_outcome result ≡ text_written text.now (length buffer.old) }
    ensures buffer_filled { buffer.new ≡ filled (number_of (outcome_of result)) (text_outcome result).length text.now buffer.old }
    ensures part { Part buffer.new (text_outcome result).length }
{
    let length = text.len();
    if buffer.len() < length {
        return Err(Kind::BufferShort.into());
    }
    fill(buffer, text, length);
    Ok(length)
}
