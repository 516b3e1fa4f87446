// Runs rows of the shared port that are not proved. A line is a row's numbers and what they get: the refusal or 0, and the lists.
#![tactic(auto)]

mod ports;

use crate::ports::port_rows;
use std::io;

// The most places of a list that is lent to a row's call.
const PLACES: usize = 34;

fn main(rt: HostRuntime) -> io::Result<()> {
    port_rows(&rt)
}
