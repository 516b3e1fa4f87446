// Runs chains by hand: found ones, the longest, and anyone's checked. A line is a row's numbers and what they get: the refusal or 0,
// and the chain, or whether it is sound.
#![tactic(auto)]

mod checker;
mod finder;
mod longest;
mod printed;

use crate::checker::{chains_walked, limits_walked};
use crate::finder::found_walked;
use crate::longest::many_links;
use std::io;

fn main(rt: HostRuntime) -> io::Result<()> {
    found_walked(&rt)?;
    many_links(&rt)?;
    chains_walked(&rt)?;
    limits_walked(&rt)
}
