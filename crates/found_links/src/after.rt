// The slots after a trace, in which nothing arrives: nothing is admitted or lost there, and what is held departs as the table lets it.
ghost use Rattle.std.specs.Prelude.{◌≡◌, ℕ, ◌+◌, ◌≤◌, min};
ghost use Rattle.refusals.specs.Table.{last_window};
ghost use Rattle.found_links.specs.FoundRows.{Totals, Ended, departed_within};

use refusals::table::last_window;

// What has departed by slot t of a total: the table lets no more than its entry at k depart in the last k slots.
fn departed_by(table: &[u32], departed: &[u32; 4161], total: u32, t: usize) -> u32
    requires { t ≤ 4160 }
    ensures { result ≡ departed_within table.now departed.now total t (min (last_window table.now) t) }
{
    let reach = last_window(table).min(t);
    let mut least = total;
    // Not `1..=reach`, which tests twice a turn.
    for k in 1..reach + 1 {
        least = least.min(departed[t - k].saturating_add(table[k]));
    }
    least
}

// Goes on with the totals by the slots of a trace, up to slot `reach`.
pub(crate) fn go_on(
    table: &[u32],
    slots: usize,
    reach: usize,
    admitted: &mut [u32; 4161],
    lost: &mut [u32; 4161],
    departed: &mut [u32; 4161],
)
    requires { (slots ≤ 4160) × (reach ≤ 4160) }
    ensures { (a u : ℕ → ℕ) → 1 ≤ last_window table.now → Ended a u slots → Totals table.now a u slots admitted.old lost.old departed.old → Totals table.now a u reach admitted.new lost.new departed.new }
{
    let total = admitted[slots];
    let missed = lost[slots];
    for t in slots..reach {
        let next = t + 1;
        admitted[next] = total;
        lost[next] = missed;
        departed[next] = departed_by(table, departed, total, next);
    }
}
