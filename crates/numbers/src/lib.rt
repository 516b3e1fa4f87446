// The numbers that all code shares: document 01's sizes, counts of slots and of packets, and the number that stands for infinity.
#![tactic(auto)]

pub mod count;
pub mod number;
pub mod size;
