// The texts that a program reads, and what it writes.
ghost use Rattle.std.specs.Prelude.{◌≡◌, ◌^◌, ◌<◌, length};
ghost use Rattle.limits.specs.Limits.{text_limit};
ghost use Rattle.program_io.specs.Clauses.{text_of_option, text_of_result, Read};

use crate::arguments::NAME_READ;
use crate::descriptor::read_descriptor;
use limits::TEXT_MOST;
use message::Message;
use report::{fail, tell};
use std::env::FillError;
use std::fs::File;
use std::io;
use std::io::{Error, ErrorKind, Print};
use std::rt::Env;

// The most bytes that a program reads of each of its texts, one more than a text may have: what follows them changes no output.
pub const TEXT_READ: usize = TEXT_MOST + 1;

// The system's number for a name that is too long.
const ENAMETOOLONG: i32 = 36;

// Opens the file of this name for reading. The library takes no name that is not UTF-8.
fn open_named(rt: &HostRuntime, name: &[u8]) -> io::Result<File> {
    match str::from_utf8(name) {
        Ok(path) => File::open(rt, path),
        Err(_) => Err(Error::new(ErrorKind::InvalidFilename, "File name not in UTF-8")),
    }
}

// Reads the file of this name.
fn read_named(rt: &HostRuntime, name: &[u8], text: &mut [u8]) -> io::Result<usize>
    ensures { Read (text_of_result result) text.new }
{
    let mut file = open_named(rt, name)?;
    read_descriptor(&mut file, text)
}

// How many bytes were read, none where that failed, which is told.
fn read_or_told<E, F: FnOnce(E)>(read: Result<usize, E>, tell: F) -> Option<usize>
    requires { F.IsAlwaysCallable tell }
    ensures { text_of_option result ≡ text_of_result read }
{
    match read {
        Ok(length) => Some(length),
        Err(error) => {
            tell(error);
            None
        }
    }
}

// Tells an argument that cannot be read as the name of a file, by its first bytes where it is longer than a path.
fn tell_argument_unread(
    rt: &HostRuntime,
    program: &[u8],
    index: usize,
    name: &[u8],
    error: FillError,
)
    requires { index < 2 ^ 63 }
{
    match error {
        FillError::TooLong => {
            let error = Error::from_raw_os_error(ENAMETOOLONG);
            fail(&rt.stderr(), program, Message::Argument(index, name), error)
        }
        FillError::NotPresent => tell(&rt.stderr(), program, Message::MissingArgument(index)),
    }
}

// Reads the file that the argument with this index, counted from 1, names, as far as the slice goes, and answers how many bytes, none where
// that fails, which is told. The slice has a place more than a text may have bytes, so that a text above the limit is not taken for its
// beginning.
pub fn read_file(rt: &HostRuntime, program: &[u8], index: u32, text: &mut [u8]) -> Option<usize>
    requires { text_limit < length text.old }
    ensures { Read (text_of_option result) text.new }
{
    let place = index as usize;
    let mut name = [0u8; NAME_READ];
    let length = read_or_told(rt.arg(place, &mut name), |error| {
        tell_argument_unread(rt, program, place, &name, error)
    })?;
    read_or_told(read_named(rt, &name[..length], text), |error| {
        fail(&rt.stderr(), program, Message::File(&name[..length]), error)
    })
}

// Reads standard input in the same way.
pub fn read_standard_input(rt: &HostRuntime, program: &[u8], text: &mut [u8]) -> Option<usize>
    requires { text_limit < length text.old }
    ensures { Read (text_of_option result) text.new }
{
    read_or_told(read_descriptor(&mut rt.stdin(), text), |error| {
        fail(&rt.stderr(), program, Message::StandardInput, error)
    })
}

// Writes to standard output. A write that fails is told.
pub fn write_output(rt: &HostRuntime, program: &[u8], output: &[u8]) {
    if let Err(error) = rt.write_all(output) {
        fail(&rt.stderr(), program, Message::StandardOutput, error);
    }
}
