// `draw < REFERENCE`: reads a reference text from standard input, and writes to standard output the record of the drawing of its rows,
// or the refusal.
#![tactic(auto)]

use program_draw::OUTPUT_MOST;
use program_io::arguments::arguments;
use program_io::streams::{TEXT_READ, read_standard_input, write_output};

const NAME: [u8; 4] = *b"draw";

fn main(rt: HostRuntime) {
    if !arguments(&rt, &NAME, 0) {
        return;
    }
    let mut reference = [0u8; TEXT_READ];
    let Some(reference_length) = read_standard_input(&rt, &NAME, &mut reference) else {
        return;
    };
    let mut output = [0u8; OUTPUT_MOST];
    if let Ok(length) = program_draw::draw(&reference[..reference_length], &mut output) {
        write_output(&rt, &NAME, &output[..length]);
    }
}
