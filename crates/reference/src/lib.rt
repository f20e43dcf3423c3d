// The reference text: a heading `REF`, n and n tags, then a line for each row. It is read whole into places of its own, so that a
// refused text changes nothing that is lent; where each row starts is kept for its label.
#![tactic(auto)]

pub mod read;
