// Certificates: links that say why nobody could have done better, checked beside anyone's rows; our own run's are found in `found_links`.
#![tactic(auto)]

pub mod check;
mod held;
