// What C is answered: refusal numbers beside values, for programs that have no enums.
#![tactic(auto)]

pub mod answer;
