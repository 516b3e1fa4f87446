// Regulators in a row: what is refused of a path, the merged table, the stages, and the run of a whole trace.
#![tactic(auto)]

pub mod judge;
pub mod merge;
pub mod run;
pub mod stage;
mod tables;
