// Runs document 01's rows on set-up, the slot and the whole trace that are not starred. A line is a row's numbers and what they
// get: the refusal or 0, and what is counted.
#![tactic(auto)]

mod runs;
mod set_ups;
mod slot_calls;

use crate::runs::runs_walked;
use crate::set_ups::set_ups_walked;
use crate::slot_calls::calls_walked;
use std::io;

fn main(rt: HostRuntime) -> io::Result<()> {
    set_ups_walked(&rt)?;
    calls_walked(&rt)?;
    runs_walked(&rt)
}
