// Runs rows of the varying envelope that are not proved. A line is a row's numbers and what they get: the refusal or 0, and the
// lists.
#![tactic(auto)]

mod squares;

use crate::squares::square_rows;
use std::io;

// The most places of a list that is lent to a row's call.
const PLACES: usize = 34;

fn main(rt: HostRuntime) -> io::Result<()> {
    square_rows(&rt)
}
