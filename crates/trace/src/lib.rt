// The whole-trace run: a table, two limits and up to 4,096 slots of arrivals, answered in three lent lists.
#![tactic(auto)]

pub mod forecast;
pub mod run;
