// The stream file: its numbers, what is refused of it, and its table, limits, arrivals and the counts' part read.
#![tactic(auto)]

pub mod judge;
pub mod number;
pub mod place;
pub mod read;
