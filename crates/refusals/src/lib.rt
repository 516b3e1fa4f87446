// Refusals that all parts share: tables, limits, arrivals, lent lists and whole traces.
#![tactic(auto)]

pub mod lengths;
pub mod limits;
pub mod table;
pub mod whole_trace;
