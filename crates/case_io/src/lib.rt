// What the programs that run stored cases share: the input and its numbers, numbers of a digest, numbers of the output. What lies
// past the input reads as 0.
#![tactic(auto)]

ghost use Rattle.std.specs.Prelude.{◌≡◌, ◌<◌, ◌≤◌, ℕ, nat_abs, length, map};
ghost use Rattle.case_io.specs.Numbers.{byte_at, four_bytes};
ghost use Rattle.case_io.specs.Clauses.{TwoBytes, Least, Number, Raised};
ghost use Rattle.case_io.specs.Digest.{digest_of};
ghost use Rattle.io.specs.Counts.{IsPrefixLen};

use std::io::{Print, Read, Stdout};

// The byte at this index.
pub fn byte_at(text: &[u8], at: usize) -> u8
    ensures { result ≡ byte_at text.now at }
{
    text.get(at).copied().unwrap_or(0)
}

// A number of two bytes, the lowest first.
pub fn two_bytes(text: &[u8], at: usize) -> u32
    requires { at < 1000000 }
    ensures { TwoBytes text.now at result }
{
    byte_at(text, at) as u32 + 256 * (byte_at(text, at + 1) as u32)
}

pub fn four_bytes(text: &[u8], at: usize) -> u32
    requires { at < 900000 }
    ensures { result ≡ four_bytes text.now at }
{
    two_bytes(text, at) + 65536 * two_bytes(text, at + 2)
}

// The sum of place times what `number` tells of the value there, the first place being 1.
pub fn digest<T: Copy, F: Fn(T) -> u64>(values: &[T], number: F) -> u64
    ghost worth: { T → ℕ }
    requires few { length values.now ≤ 2048 }
    requires callable { F.IsAlwaysCallable number }
    requires numbers { (x : T) (r : ℕ) → F.post number x r → Number (worth x) r }
    ensures { result ≡ digest_of (map worth values.now) }
{
    let mut sum: u64 = 0;
    for (k, value) in values.iter().enumerate() {
        sum += (k as u64 + 1) * number(*value);
    }
    sum
}

pub fn least(a: usize, b: usize) -> usize
    ensures { Least a b result }
{
    a.min(b)
}

// A number within `most` of 0 with `most` added; 0 for any other, which no call hands out.
pub fn raised(x: i64, most: i64) -> u64
    requires { nat_abs most < 2147483648 }
    ensures { Raised most x result }
{
    if -most <= x && x <= most {
        (x + most) as u64
    } else {
        0
    }
}

// Reads until the slice is full, the input ends or a read fails, and answers how many bytes.
pub fn read_full<R: Read>(input: &mut R, text: &mut [u8]) -> usize
    ensures { IsPrefixLen result text.new }
{
    let mut at = 0;
    // The step is what a read gave.
    while at < text.len() {
        match input.read(&mut text[at..]) {
            Ok(0) | Err(_) => return at,
            Ok(count) => at += count,
        }
    }
    at
}

// Writes a number and the byte after it.
pub fn print_number(stdout: &Stdout, number: u64, end: u8) {
    let _ = stdout.print(number);
    let _ = stdout.write_all(&[end]);
}
