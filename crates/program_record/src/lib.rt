// A reference text and a record, from which the programs that need an envelope start. Each text of a program is a slice of its own. Texts
// are never joined: in one input, whoever writes the first could say where it ends.
#![tactic(auto)]

ghost use Rattle.std.specs.Prelude.{◌≡◌};
ghost use Rattle.limits.specs.Limits.{total, row_limit};
ghost use Rattle.channel.specs.Channel.{channel_types};
ghost use Rattle.record_read.specs.Clauses.{envelope_outcome};
ghost use Rattle.program_record.specs.Against.{record_against};

use envelope::Envelope;
use limits::PLACES;
use refusal::Refusal;

// Reads a record against the rows and tags of a reference text. Refused: as the reference text is, then as the record is.
pub fn record_against(reference: &[u8], record_text: &[u8]) -> Result<Envelope, Refusal>
    ensures { envelope_outcome row_limit result ≡ record_against total row_limit channel_types reference.now record_text.now }
{
    let mut table = [0i32; PLACES];
    let read = reference::read::read(reference, &mut table)?;
    let places = read.m * read.n;
    let codes = read.codes;
    record_read::read(
        &table[..places],
        read.m,
        read.n,
        &codes[..read.n],
        record_text,
    )
}
