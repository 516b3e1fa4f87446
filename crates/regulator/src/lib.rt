// The live regulator: set-up, the slot on lent parts, by value and over a lent regulator. It promises theorem 5.1's totals over
// any list of calls.
#![tactic(auto)]

pub mod lent;
pub mod parts;
pub mod regulator;
pub mod slot;
pub mod step;
