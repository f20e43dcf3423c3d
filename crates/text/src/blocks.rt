// The search for a byte by blocks: blocks without it are passed whole, and within the block that has it the bytes are gone through.
ghost use Rattle.std.specs.Prelude.{◌≡◌, ◌+◌, ◌≤◌, length, take, drop};
ghost use Rattle.text.specs.Parts.{free};
ghost use Rattle.text.specs.Clauses.{PartEnd, block_length};

// how many bytes a block has: those that the machine compares at once
const BLOCK: usize = 8;

// Whether the byte stands nowhere in the block that starts at `at`. Every byte of it is compared, so that all are at once.
fn block_free(text: &[u8], at: usize, byte: u8) -> bool
    requires { at + block_length ≤ length text.now }
    ensures { result ≡ free byte (take block_length (drop at text.now)) }
{
    let mut clear = true;
    for k in 0..BLOCK {
        clear = clear & (text[at + k] != byte);
    }
    clear
}

// Where the part that starts at `at` ends: at the next such byte, or at the end of the text where there is none.
pub fn part_end(text: &[u8], at: usize, byte: u8) -> usize
    requires { at ≤ length text.now }
    ensures { PartEnd byte text.now at result }
{
    let mut from = at;
    // The step is a block.
    while BLOCK <= text.len() - from && block_free(text, from, byte) {
        from += BLOCK;
    }
    crate::scan::find(text, from, text.len(), byte)
}
