// Runs the device of buckets on rows that are not proved. A line is a row's numbers and what they get: the refusal or 0, slots'
// records and peaks.
#![tactic(auto)]

mod last_slot;
mod printed;
mod profiles;
mod slot_calls;

use crate::last_slot::slots_walked;
use crate::profiles::profiles_walked;
use crate::slot_calls::calls_walked;
use std::io;

fn main(rt: HostRuntime) -> io::Result<()> {
    profiles_walked(&rt)?;
    calls_walked(&rt)?;
    slots_walked(&rt)
}
