#![tactic(auto)]
// The lines of a record (document 01, "Texts") as they are read: `C`, `R` and `W`, each a word and numbers. The words and letters are
// fixed byte strings, compared here and written by the printing of a record.
pub mod line;
pub mod words;
