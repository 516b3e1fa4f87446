// The pencil version, and all short traces in order; both agree with the whole-trace run and a fresh live regulator.
#![tactic(auto)]

pub mod judge;
pub mod listing;
pub mod run;
pub mod totals;
