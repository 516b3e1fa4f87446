// The envelope: its closure worked window by window with its first pieces, and the windows that a regulator keeps.
#![tactic(auto)]

pub mod closure;
pub mod entries;
pub mod envelope;
pub mod piece;
pub mod table;
pub mod windows;
