// The limits of documents 01 and 02, each named once: a constant here, a definition in specs/. How many digits the largest number of a kind has
// is among them, since the room for a printed text is computed from it.
#![tactic(auto)]

// D
pub const TOTAL: u32 = 65536;

// the most rows
pub const ROWS: usize = 256;

// the most channels
pub const CHANNELS: usize = 8;

// the most places of a table
pub const PLACES: usize = ROWS * CHANNELS;

// how far a coordinate may be from 0, and both ends of a type's range
pub const COORDINATE_MOST: i32 = 4000;

// how far a place of X may be from 0
pub const CENTRE_MOST: i64 = COORDINATE_MOST as i64 * TOTAL as i64;

// the largest s, M and L
pub const DISTANCE_MOST: u64 = CHANNELS as u64
    * (2 * CENTRE_MOST as u64)
    * (2 * CENTRE_MOST as u64);

// the largest budget
pub const BUDGET_MOST: u32 = 1_000_000;

// the most bytes of a text, of a label and of a tag
pub const TEXT_MOST: usize = 65536;

pub const LABEL_MOST: usize = 12;

pub const TAG_MOST: usize = 3;

// the most settings of an alert that are tried at once, and the largest k and c
pub const SETTINGS: usize = 20;

pub const RUN_MOST: u32 = 99;

// how many digits have the largest n, row, coordinate, weight, place of X, s, number of moves, k and c, and number of a text's bytes
pub const CHANNEL_DIGITS: usize = 1;

pub const ROW_DIGITS: usize = 3;

pub const COORDINATE_DIGITS: usize = 4;

pub const WEIGHT_DIGITS: usize = 5;

pub const CENTRE_DIGITS: usize = 9;

pub const DISTANCE_DIGITS: usize = 19;

pub const MOVES_DIGITS: usize = 7;

pub const RUN_DIGITS: usize = 2;

pub const TEXT_DIGITS: usize = 5;
