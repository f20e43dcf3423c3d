// An open file or stream read into a lent slice.
ghost use Rattle.std.specs.Prelude.{◌≡◌, ◌+◌, ◌^◌, ◌<◌, IfOk};
ghost use Rattle.program_io.specs.Reading.{after_read};
ghost use Rattle.program_io.specs.Clauses.{read_number, step_taken, text_of_result, Read};

use std::io;

// Where the slice goes on after a read which was to fill it from index `at` on, none where the input has ended.
fn after_read(got: io::Result<usize>, at: usize) -> io::Result<Option<usize>>
    requires { IfOk got (λ count. at + count < 2 ^ 64) }
    ensures { step_taken at result ≡ after_read (read_number got) at }
{
    let count = got?;
    if count == 0 {
        Ok(None)
    } else {
        Ok(Some(at + count))
    }
}

// Reads until the slice is full or the input ends, and answers how many bytes, or why a read failed.
pub fn read_descriptor<D: io::Read>(descriptor: &mut D, text: &mut [u8]) -> io::Result<usize>
    ensures { Read (text_of_result result) text.new }
{
    let mut at = 0;
    // The step is what a read gave.
    while at < text.len() {
        match after_read(descriptor.read(&mut text[at..]), at)? {
            Some(next) => at = next,
            None => return Ok(at),
        }
    }
    Ok(at)
}
