// The static library: every function that C and Rust can call, each of which calls the function of its name in `exports` and
// promises what that one does. Any arguments are answered: no function has a `requires`. The two are not one crate, since no crate can
// stand on a static library, and what C is promised is proved of functions that others can cite.
#![tactic(auto)]

mod ahead;
mod buckets;
mod certificates;
mod chains;
mod envelope_at;
mod fill;
mod live;
mod part;
mod rival;
mod shared_port;
mod short;
mod sizing;
mod whole;
mod whole_path;
mod whole_square;
mod worst_case;
