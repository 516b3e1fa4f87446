// The device of leaky buckets: its profile judged, the levels of its buckets, set-up and the slot.
#![tactic(auto)]

pub mod device;
pub mod levels;
pub mod parts;
pub mod profile;
pub mod slot;
pub mod step;
