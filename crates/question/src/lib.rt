// f and its first piece, asked at one window or at many at once.
#![tactic(auto)]

pub mod many_windows;
pub mod question;
