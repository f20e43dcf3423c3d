// The messages of the programs, as they are printed before they are told. Each starts with the program's name.
#![tactic(auto)]

ghost use Rattle.std.specs.Prelude.{◌^◌, ◌≤◌, ◌<◌, length};
ghost use Rattle.message.specs.Message.{
  program_part,
  argument_part,
  missing_message,
  named_argument,
  excess_message,
  file_message,
  stream_message,
};
ghost use Rattle.message.specs.Clauses.{IndexFits, told, stream_room, program_room, argument_room, named_room, message_room};
ghost use Rattle.file_name.specs.Clauses.{PutWithin};

use file_name::{NAME_ROOM, START_ROOM, put_name, put_start};
use printing::{NUMBER_ROOM, put_bytes, put_number};

const SEPARATOR: [u8; 2] = *b": ";

const ARGUMENT: [u8; 9] = *b"argument ";

const BLANK: [u8; 1] = *b" ";

const STANDARD_INPUT: [u8; 14] = *b"standard input";

const STANDARD_OUTPUT: [u8; 15] = *b"standard output";

const MISSING: [u8; 10] = *b": missing\n";

const EXCESS: [u8; 15] = *b": one too many\n";

// room for every message; the longest is that of an argument which is one too many, with these parts
pub const MESSAGE_ROOM: usize = START_ROOM + 2 + 9 + NUMBER_ROOM + 1 + NAME_ROOM + 15;

// What is told of an argument, by its index, counted from 1, and its bytes, of a file by its name, or of a stream. The first two are lines;
// after the others a reason follows.
#[derive(Clone, Copy, PartialEq, Eq, Debug)]
pub enum Message<'a> {
    MissingArgument(usize),
    ExcessArgument(usize, &'a [u8]),
    Argument(usize, &'a [u8]),
    File(&'a [u8]),
    StandardInput,
    StandardOutput,
}

// Each of these prints a message at the start of a slice with room for it, and answers its length.
fn put_program(out: &mut [u8], program: &[u8]) -> usize
    requires { program_room ≤ length out.old }
    ensures { PutWithin program_room (program_part program.now) out.old 0 out.new result }
{
    let end = put_start(out, 0, program);
    put_bytes(out, end, &SEPARATOR)
}

fn put_argument(out: &mut [u8], program: &[u8], index: usize) -> usize
    requires { (index < 2 ^ 63) × (argument_room ≤ length out.old) }
    ensures { PutWithin argument_room (argument_part program.now index) out.old 0 out.new result }
{
    let start = put_program(out, program);
    let end = put_bytes(out, start, &ARGUMENT);
    put_number(out, end, index as i64)
}

fn put_missing(out: &mut [u8], program: &[u8], index: usize) -> usize
    requires { (index < 2 ^ 63) × (message_room ≤ length out.old) }
    ensures { PutWithin message_room (missing_message program.now index) out.old 0 out.new result }
{
    let end = put_argument(out, program, index);
    put_bytes(out, end, &MISSING)
}

pub fn put_named_argument(out: &mut [u8], program: &[u8], index: usize, name: &[u8]) -> usize
    requires { (index < 2 ^ 63) × (named_room ≤ length out.old) }
    ensures { PutWithin named_room (named_argument program.now index name.now) out.old 0 out.new result }
{
    let end = put_argument(out, program, index);
    let start = put_bytes(out, end, &BLANK);
    put_name(out, start, name)
}

fn put_excess(out: &mut [u8], program: &[u8], index: usize, name: &[u8]) -> usize
    requires { (index < 2 ^ 63) × (message_room ≤ length out.old) }
    ensures { PutWithin message_room (excess_message program.now index name.now) out.old 0 out.new result }
{
    let end = put_named_argument(out, program, index, name);
    put_bytes(out, end, &EXCESS)
}

fn put_file(out: &mut [u8], program: &[u8], name: &[u8]) -> usize
    requires { message_room ≤ length out.old }
    ensures { PutWithin message_room (file_message program.now name.now) out.old 0 out.new result }
{
    let start = put_program(out, program);
    put_name(out, start, name)
}

fn put_stream(out: &mut [u8], program: &[u8], stream: &[u8]) -> usize
    requires { (length stream.now ≤ stream_room) × (message_room ≤ length out.old) }
    ensures { PutWithin message_room (stream_message program.now stream.now) out.old 0 out.new result }
{
    let start = put_program(out, program);
    put_bytes(out, start, stream)
}

pub fn put_message(out: &mut [u8], program: &[u8], message: Message<'_>) -> usize
    requires { IndexFits message × (message_room ≤ length out.old) }
    ensures { PutWithin message_room (told program.now message.entry) out.old 0 out.new result }
{
    match message {
        Message::MissingArgument(index) => put_missing(out, program, index),
        Message::ExcessArgument(index, name) => put_excess(out, program, index, name),
        Message::Argument(index, name) => put_named_argument(out, program, index, name),
        Message::File(name) => put_file(out, program, name),
        Message::StandardInput => put_stream(out, program, &STANDARD_INPUT),
        Message::StandardOutput => put_stream(out, program, &STANDARD_OUTPUT),
    }
}
