// A port above the regulators: what is refused of its run, the queue by due slot, and the run.
#![tactic(auto)]

pub mod judge;
pub mod queue;
pub mod run;
