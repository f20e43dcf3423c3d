// The fixed byte strings of a record: the words of its lines, and the letters of the two endings; and how many bytes they have.

pub const RECORD_WORD_BYTES: usize = 3;

pub const LINE_WORD_BYTES: usize = 1;

pub const LETTER_BYTES: usize = 1;

pub const RECORD_WORD: [u8; RECORD_WORD_BYTES] = *b"ENV";

pub const CENTRE_WORD: [u8; LINE_WORD_BYTES] = *b"C";

pub const RESULT_WORD: [u8; LINE_WORD_BYTES] = *b"R";

pub const WEIGHT_WORD: [u8; LINE_WORD_BYTES] = *b"W";

pub const SETTLED_LETTER: [u8; LETTER_BYTES] = *b"S";

pub const BUDGET_LETTER: [u8; LETTER_BYTES] = *b"B";
