// The arguments that a program was started with.
ghost use Rattle.std.specs.Prelude.{◌≡◌, ◌^◌, ◌<◌};
ghost use Rattle.program_io.specs.Arguments.{arguments_given, given_of};

use message::Message;
use report::tell;
use std::cmp::Ordering;
use std::env::FillError;
use std::rt::Env;

// The most bytes that are read of an argument: those of the system's longest path, with the byte that ends it.
pub const NAME_READ: usize = 4096;

// Why the arguments that are there are not those that are taken: the first that is missing or one too many, by its index, counted from 1.
#[derive(Clone, Copy, PartialEq, Eq, Debug)]
enum Mismatch {
    Missing(usize),
    Excess(usize),
}

fn compared(present: usize, count: u32) -> Result<(), Mismatch>
    ensures { given_of result ≡ arguments_given present count }
{
    let taken = count as usize;
    match present.cmp(&taken) {
        Ordering::Less => Err(Mismatch::Missing(present + 1)),
        Ordering::Equal => Ok(()),
        Ordering::Greater => Err(Mismatch::Excess(taken + 1)),
    }
}

// How many arguments are there, without the program's own name, which stands before them.
fn argument_count(rt: &HostRuntime) -> usize {
    let mut first = [0u8; 1];
    for index in 1..usize::MAX {
        if let Err(FillError::NotPresent) = rt.arg(index, &mut first) {
            return index - 1;
        }
    }
    usize::MAX
}

// Tells an argument that is one too many, by its first bytes where it is longer than a path.
fn tell_argument_excess(rt: &HostRuntime, program: &[u8], index: usize)
    requires { index < 2 ^ 63 }
{
    let mut name = [0u8; NAME_READ];
    let told = match rt.arg(index, &mut name) {
        Ok(length) => &name[..length],
        Err(FillError::TooLong) => &name[..],
        Err(FillError::NotPresent) => &[],
    };
    let message = Message::ExcessArgument(index, told);
    tell(&rt.stderr(), program, message);
}

// Whether the program was started with exactly so many arguments; else tells the first that is missing or one too many.
pub fn arguments(rt: &HostRuntime, program: &[u8], count: u32) -> bool {
    match compared(argument_count(rt), count) {
        Ok(()) => true,
        Err(Mismatch::Missing(index)) => {
            tell(&rt.stderr(), program, Message::MissingArgument(index));
            false
        }
        Err(Mismatch::Excess(index)) => {
            tell_argument_excess(rt, program, index);
            false
        }
    }
}
