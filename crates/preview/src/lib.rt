// The preview of a live regulator: what the next slot would give, told without taking it.
#![tactic(auto)]

pub mod next;
