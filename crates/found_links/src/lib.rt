// The links found for our own run, from each slot back: its certificate, and the chain to one of its slots.
#![tactic(auto)]

mod after;
pub mod certify;
pub mod find;
mod found;
mod place;
mod rows;
mod starts;
