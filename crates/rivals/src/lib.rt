// Anyone's rows judged: whether they are permitted, and if not, which rule breaks first and where.
#![tactic(auto)]

pub mod judge;
pub mod rules;
pub mod tally;
