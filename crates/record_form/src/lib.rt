// The form of a record (document 01, "Texts"): its lines as they are read one after another. Whether the record agrees with rows is
// not asked here.
#![tactic(auto)]

pub mod form;
