// The search for a byte, byte by byte.
ghost use Rattle.std.specs.Prelude.{◌≡◌, ◌+◌, ◌≤◌, length};
ghost use Rattle.text.specs.Bytes.{index_of, slice};

// The index of the first such byte from `from` on and before `to`, or `to` where there is none.
pub fn find(text: &[u8], from: usize, to: usize, byte: u8) -> usize
    requires { (from ≤ to) × (to ≤ length text.now) }
    ensures is { result ≡ from + index_of byte (slice from to text.now) }
    ensures high { result ≤ to }
{
    for at in from..to {
        if text[at] == byte {
            return at;
        }
    }
    to
}
