// Names as they are told: bytes 33 to 126 stand for themselves except the backslash, every other byte is a backslash, `x` and two hex
// digits, so that a name is always on one line and tells its bytes.
#![tactic(auto)]

ghost use Rattle.std.specs.Prelude.{◌≡◌, ◌+◌, ◌≤◌, ◌<◌, length};
ghost use Rattle.io.specs.Digits.{hex_digit_ascii};
ghost use Rattle.file_name.specs.Name.{
  is_shown,
  escaped_byte,
  escaped_start,
  quoted_start,
  escaped_name,
};
ghost use Rattle.file_name.specs.Clauses.{byte_room, start_room, quoted_room, name_room, ShownLength, PutWithin};

use printing::put_bytes;

// the most bytes of a name that are told
const NAME_MOST: usize = 60;

// room for these, and for a name with its quotes and what tells that it goes on
pub const START_ROOM: usize = 4 * NAME_MOST;

pub const NAME_ROOM: usize = START_ROOM + 5;

const BACKSLASH: u8 = b'\\';

// what is added to a hex digit from ten on
const BEFORE_HEX_LETTERS: u8 = b'a' - 10;

const QUOTE: [u8; 1] = *b"'";

const DOTS: [u8; 3] = *b"...";

// Whether a byte stands for itself.
fn is_shown(byte: u8) -> bool
    ensures { result ≡ is_shown byte }
{
    (b'!'..=b'~').contains(&byte) && byte != BACKSLASH
}

fn hex_digit(digit: u8) -> u8
    requires { digit < 16 }
    ensures { result ≡ hex_digit_ascii digit }
{
    if digit < 10 {
        b'0' + digit
    } else {
        BEFORE_HEX_LETTERS + digit
    }
}

fn put_escaped_byte(out: &mut [u8], at: usize, byte: u8) -> usize
    requires { at + byte_room ≤ length out.old }
    ensures { PutWithin byte_room (escaped_byte byte) out.old at out.new result }
{
    if is_shown(byte) {
        return put_bytes(out, at, &[byte]);
    }
    put_bytes(
        out,
        at,
        &[BACKSLASH, b'x', hex_digit(byte / 16), hex_digit(byte % 16)],
    )
}

// How many bytes of a name are told.
fn shown_length(name: &[u8]) -> usize
    ensures { ShownLength name.now result }
{
    name.len().min(NAME_MOST)
}

// Prints the first bytes of a name from index `at` on, and answers the index after them.
pub fn put_start(out: &mut [u8], at: usize, name: &[u8]) -> usize
    requires { at + start_room ≤ length out.old }
    ensures { PutWithin start_room (escaped_start name.now) out.old at out.new result }
{
    let count = shown_length(name);
    let mut end = at;
    for byte in &name[..count] {
        end = put_escaped_byte(out, end, *byte);
    }
    end
}

// The same in quotes.
fn put_quoted(out: &mut [u8], at: usize, name: &[u8]) -> usize
    requires { at + quoted_room ≤ length out.old }
    ensures { PutWithin quoted_room (quoted_start name.now) out.old at out.new result }
{
    let start = put_bytes(out, at, &QUOTE);
    let end = put_start(out, start, name);
    put_bytes(out, end, &QUOTE)
}

// The same, with dots after it where the name has more bytes.
pub fn put_name(out: &mut [u8], at: usize, name: &[u8]) -> usize
    requires { at + name_room ≤ length out.old }
    ensures { PutWithin name_room (escaped_name name.now) out.old at out.new result }
{
    let end = put_quoted(out, at, name);
    if name.len() <= NAME_MOST {
        return end;
    }
    put_bytes(out, end, &DOTS)
}
