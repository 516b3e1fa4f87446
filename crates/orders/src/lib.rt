// Refusals and their numbers. The definitions are the orders of documents 01 and 02, place by place, the first number that applies, and
// what a refused call answers and leaves.
#![tactic(auto)]

pub mod refusal;
