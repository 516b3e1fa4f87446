// Runs document 01's rows on the envelope that are not starred, and document 02's on its first piece. A line is a row's numbers and
// what they get: a table's refusal or 0, or f at a window and its piece.
#![tactic(auto)]

mod questions;
mod tables_judged;

use crate::questions::questions_walked;
use crate::tables_judged::tables_walked;
use std::io;

fn main(rt: HostRuntime) -> io::Result<()> {
    tables_walked(&rt)?;
    questions_walked(&rt)
}
