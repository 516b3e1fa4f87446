// Chains of slots: what is refused, the rows that links are read off, and the checker; and what an accepted chain says.
#![tactic(auto)]

pub mod check;
pub mod judge;
pub mod link;
pub mod rows;
