// `alerts REFERENCE RECORD SETTINGS < READINGS`: reads a reference text, a record and a settings text from files and readings from standard
// input, and writes to standard output the trial of the settings on the readings, or the refusal of a text.
#![tactic(auto)]

use program_alerts::OUTPUT_MOST;
use program_io::arguments::arguments;
use program_io::streams::{TEXT_READ, read_file, read_standard_input, write_output};

const NAME: [u8; 6] = *b"alerts";

// Reads the readings, and writes the output of the program.
fn try_on_input(rt: &HostRuntime, reference: &[u8], record: &[u8], settings: &[u8]) {
    let mut readings = [0u8; TEXT_READ];
    let Some(readings_length) = read_standard_input(rt, &NAME, &mut readings) else {
        return;
    };
    let mut output = [0u8; OUTPUT_MOST];
    if let Ok(length) = program_alerts::alerts(
        reference,
        record,
        settings,
        &readings[..readings_length],
        &mut output,
    ) {
        write_output(rt, &NAME, &output[..length]);
    }
}

fn main(rt: HostRuntime) {
    if !arguments(&rt, &NAME, 3) {
        return;
    }
    let mut reference = [0u8; TEXT_READ];
    let Some(reference_length) = read_file(&rt, &NAME, 1, &mut reference) else {
        return;
    };
    let mut record = [0u8; TEXT_READ];
    let Some(record_length) = read_file(&rt, &NAME, 2, &mut record) else {
        return;
    };
    let mut settings = [0u8; TEXT_READ];
    let Some(settings_length) = read_file(&rt, &NAME, 3, &mut settings) else {
        return;
    };
    try_on_input(
        &rt,
        &reference[..reference_length],
        &record[..record_length],
        &settings[..settings_length],
    );
}
