// `verify REFERENCE < RECORD`: reads a reference text from a file and a record from standard input, and writes to standard output `OK` where
// the record agrees with the rows and tags, else the refusal.
#![tactic(auto)]

use program_io::arguments::arguments;
use program_io::streams::{TEXT_READ, read_file, read_standard_input, write_output};
use program_verify::OUTPUT_MOST;

const NAME: [u8; 6] = *b"verify";

fn main(rt: HostRuntime) {
    if !arguments(&rt, &NAME, 1) {
        return;
    }
    let mut reference = [0u8; TEXT_READ];
    let Some(reference_length) = read_file(&rt, &NAME, 1, &mut reference) else {
        return;
    };
    let mut record = [0u8; TEXT_READ];
    let Some(record_length) = read_standard_input(&rt, &NAME, &mut record) else {
        return;
    };
    let mut output = [0u8; OUTPUT_MOST];
    if let Ok(length) = program_verify::verify(
        &reference[..reference_length],
        &record[..record_length],
        &mut output,
    ) {
        write_output(&rt, &NAME, &output[..length]);
    }
}
