// The regulator for programs in C and Rust: set-up, the live slot, its preview and the readers of its record, the device, the
// whole-trace run of one regulator, of several in a row and of an envelope that varies with time, the shared port, the trace that
// loses most, the smallest limits, short traces and the pencil version, chains found and checked, anyone's rows judged, certificates
// given and checked, the envelope, and where a stream file's counts stand, each answering its refusal number beside its values. Any
// arguments are answered: no function has a `requires`.
#![tactic(auto)]

pub mod ahead;
pub mod buckets;
pub mod certificates;
pub mod chains;
pub mod envelope_at;
pub mod fill;
pub mod live;
pub mod part;
pub mod rival;
pub mod shared_port;
pub mod short;
pub mod sizing;
pub mod whole;
pub mod whole_path;
pub mod whole_square;
pub mod worst_case;
