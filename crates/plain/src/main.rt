// `plain < REFERENCE`: reads a reference text from standard input, and writes to standard output the text of its table, its types and its
// labels, each value plain, or the refusal.
#![tactic(auto)]

use program_io::arguments::arguments;
use program_io::streams::{TEXT_READ, read_standard_input, write_output};
use program_plain::OUTPUT_MOST;

const NAME: [u8; 5] = *b"plain";

fn main(rt: HostRuntime) {
    if !arguments(&rt, &NAME, 0) {
        return;
    }
    let mut reference = [0u8; TEXT_READ];
    let Some(reference_length) = read_standard_input(&rt, &NAME, &mut reference) else {
        return;
    };
    let mut output = [0u8; OUTPUT_MOST];
    if let Ok(length) = program_plain::plain(&reference[..reference_length], &mut output) {
        write_output(&rt, &NAME, &output[..length]);
    }
}
