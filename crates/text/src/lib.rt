// The printed text: the loss table and the refusal, written byte for byte into a lent slice.
#![tactic(auto)]

pub mod bytes;
pub mod line;
pub mod number;
pub mod print;
pub mod table;
