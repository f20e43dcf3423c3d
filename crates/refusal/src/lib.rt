// The refusals of document 01's table "Turned-back input", and after them those that document 02 adds: each has a number and the line at fault, counted from 1, or 0
// where no line is at fault. Every public call that can be refused answers a `Result` with a `Refusal`.
#![tactic(auto)]

ghost use Rattle.std.specs.Prelude.{◌≡◌};
ghost use Rattle.refusal.specs.Outcome.{kind_number, number_of, line_of, outcome_of};

// The kinds of refusals. Each has the number that document 01 or 02 gives it.
#[derive(Clone, Copy, PartialEq, Eq)]
pub enum Kind {
    // text empty or above 65,536 bytes
    TextLength = 1,
    // bad heading or unknown tag
    Heading = 2,
    // line not in form, no final byte 10
    LineForm = 3,
    // value outside its type's range
    ValueRange = 4,
    // label used on an earlier row
    LabelRepeated = 5,
    // no row, or one past the row limit
    RowCount = 6,
    // lent table below m times n
    TableShort = 7,
    // n, m, coordinate, type code, envelope figure or chart channel outside limits; rows lent in below m times n places;
    // weight list not of m places; labels not one for each row
    OutsideLimits = 8,
    // budget above 1,000,000
    BudgetTooLarge = 9,
    // reading's tag not the envelope's
    TagDiffers = 10,
    // record not in form
    RecordForm = 11,
    // weights or record disagree with rows
    Disagreement = 12,
    // output buffer too short
    BufferShort = 13,
    // k or c outside 1 to 99, or 0 or over 20 settings, or a k without its c
    AlertSettings = 14,
}

#[derive(Clone, Copy, PartialEq, Eq)]
pub struct Refusal {
    pub kind: Kind,
    pub line: u32,
}

impl Refusal {
    // The refusal of this kind at this line.
    pub fn new(kind: Kind, line: u32) -> Refusal
        ensures { result ≡ record { kind = kind; line = line } }
    {
        Refusal { kind, line }
    }

    // The number of its kind.
    pub fn number(self) -> u32
        ensures { result ≡ kind_number self.kind }
    {
        self.kind as u32
    }
}

// A refusal without a line at fault.
impl From<Kind> for Refusal {
    ghost from_gives = { λ k r. r ≡ record { kind = k; line = 0 } };

    fn from(kind: Kind) -> Refusal {
        Refusal { kind, line: 0 }
    }
}

// The number of an answer as document 01 gives it, 0 where the call is accepted.
pub fn number_of<T>(answer: &Result<T, Refusal>) -> u32
    ensures { result ≡ number_of (outcome_of answer.now) }
{
    match answer {
        Ok(_) => 0,
        Err(refusal) => refusal.number(),
    }
}

// The line at fault, 0 where there is none.
pub fn line_of<T>(answer: &Result<T, Refusal>) -> u32
    ensures { result ≡ line_of (outcome_of answer.now) }
{
    match answer {
        Ok(_) => 0,
        Err(refusal) => refusal.line,
    }
}
