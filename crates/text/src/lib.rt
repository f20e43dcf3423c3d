// A text as lines and fields (document 01, "Texts"): the parts between its bytes 10, and of a line between its commas. Fields are
// handed on as parts of the text.
#![tactic(auto)]

mod blocks;
pub mod parts;
pub mod reader;
pub mod scan;
