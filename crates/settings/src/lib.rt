// What slots are worked with: the table taken as an envelope, and what the two limits leave of an admitted total.
#![tactic(auto)]

pub mod limits;
pub mod table;
