// The first slots of departed links, worked slot after slot: where the table's entry at k departs in the last k slots, a departed link to
// slot t-k goes on to slot t.
ghost use Rattle.std.specs.Prelude.{◌≡◌, ◌≤◌, ◌<◌, min, length};
ghost use Rattle.refusals.specs.Table.{last_window};
ghost use Rattle.found_links.specs.FoundRows.{StartsTo, start_via, start_within};

use chain::link::makes;
use refusals::table::last_window;

// The first slot by way of slot t-k; t where something else departs in between.
fn start_via(table: &[u32], departed: &[u32; 4161], starts: &[u32; 4161], t: usize, k: usize) -> u32
    requires { (k < length table.now) × (k ≤ t) × (t ≤ 4160) }
    ensures { result ≡ start_via table.now departed.now starts.now t k }
{
    let before = t - k;
    if makes(departed[before], table[k], departed[t]) {
        starts[before]
    } else {
        t as u32
    }
}

// The earliest over the windows of the table.
fn start_to(table: &[u32], departed: &[u32; 4161], starts: &[u32; 4161], t: usize) -> u32
    requires { t ≤ 4160 }
    ensures { result ≡ start_within table.now departed.now starts.now t (min (last_window table.now) t) }
{
    let reach = last_window(table).min(t);
    let mut first = t as u32;
    // Not `1..=reach`, which tests twice a turn.
    for k in 1..reach + 1 {
        first = first.min(start_via(table, departed, starts, t, k));
    }
    first
}

// The same for the slots 0 to `slots`, each from those before it.
pub(crate) fn start_row(
    table: &[u32],
    departed: &[u32; 4161],
    slots: usize,
    starts: &mut [u32; 4161],
)
    requires { slots ≤ 4160 }
    ensures { StartsTo table.now departed.now slots starts.new slots }
{
    starts[0] = 0;
    for t in 1..slots + 1 {
        starts[t] = start_to(table, departed, starts, t);
    }
}
