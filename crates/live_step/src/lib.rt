// What a live slot is worked with: the row of past totals, the forecasts and what they admit, and the slot's record with
// its two fills.
#![tactic(auto)]

pub mod fill;
pub mod past;
pub mod record;
pub mod step;
