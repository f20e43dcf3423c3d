// `judge REFERENCE RECORD < READINGS`: reads a reference text and a record from files and readings from standard input, and writes to
// standard output the verdict on each reading, or the refusal of a text.
#![tactic(auto)]

use program_io::arguments::arguments;
use program_io::streams::{TEXT_READ, read_file, read_standard_input, write_output};
use program_judge::OUTPUT_MOST;

const NAME: [u8; 5] = *b"judge";

fn main(rt: HostRuntime) {
    if !arguments(&rt, &NAME, 2) {
        return;
    }
    let mut reference = [0u8; TEXT_READ];
    let Some(reference_length) = read_file(&rt, &NAME, 1, &mut reference) else {
        return;
    };
    let mut record = [0u8; TEXT_READ];
    let Some(record_length) = read_file(&rt, &NAME, 2, &mut record) else {
        return;
    };
    let mut readings = [0u8; TEXT_READ];
    let Some(readings_length) = read_standard_input(&rt, &NAME, &mut readings) else {
        return;
    };
    let mut output = [0u8; OUTPUT_MOST];
    if let Ok(length) = program_judge::judge(
        &reference[..reference_length],
        &record[..record_length],
        &readings[..readings_length],
        &mut output,
    ) {
        write_output(&rt, &NAME, &output[..length]);
    }
}
