// The least sums of two rows, on 64 bits, place by place, and those of a row that moves on meanwhile.
#![tactic(auto)]

pub mod least;
pub mod moved;
