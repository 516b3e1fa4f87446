// The step that the slot over lent parts takes in place: the row of past departed totals is read and moves on in one walk.
ghost use Rattle.std.specs.Prelude.{◌≡◌, ◌≤◌, length};
ghost use Rattle.least_sum.specs.Pushed.{pushed, newest_put};
ghost use Rattle.refusals.specs.Limits.{delay_limit, buffer_limit};
ghost use Rattle.live_step.specs.Step.{forecast_at, forecast_late, Stepped};

use least_sum::moved::{least_moved, pair_moved};
use live_step::step::{Forecasts, Totals, admit, forecast_late};
use numbers::size::LONGEST_DELAY;

// The places of the slot's forecasts in the row, after the past.
pub const SOON: usize = 64;

pub const LATE: usize = 65;

// Both forecasts, the past being read once where the delay is that of a set-up. The past moves on, and its first place is kept for the
// total that the forecasts let depart.
fn both_forecasts(row: &mut [u64], near: &[u32], last: usize, delay: u32) -> Forecasts
    requires { (64 ≤ length row.old) × (length near.now ≡ 129) × (last ≤ 64) }
    ensures { (result.soon ≡ forecast_at last near.now row.old 0) × (result.late ≡ forecast_late last (delay_limit delay) near.now row.old) × (row.new ≡ pushed last 0 row.old) }
{
    if LONGEST_DELAY < delay {
        let late = forecast_late(row, near, last, delay);
        let soon = least_moved(row, &near[1..], last);
        return Forecasts { soon, late };
    }
    let from = delay as usize + 1;
    let both = pair_moved(row, &near[1..], &near[from..], last);
    Forecasts {
        soon: both.first,
        late: both.second,
    }
}

// The departed total takes the place that was kept for it.
fn put_newest(row: &mut [u64], last: usize, departed: u64)
    requires { 1 ≤ length row.old }
    ensures { row.new ≡ newest_put last departed row.old }
{
    if last == 0 {
        return;
    }
    row[0] = departed;
}

// Takes one slot on a lent row: the row moves on, and the totals after the slot are answered.
pub(crate) fn step(
    row: &mut [u64],
    near: &[u32],
    last: usize,
    delay: u32,
    buffer: u64,
    admitted: u64,
    arrivals: u64,
) -> Totals
    requires { (66 ≤ length row.old) × (length near.now ≡ 129) × (last ≤ 64) }
    ensures { Stepped last (delay_limit delay) (buffer_limit buffer) near.now row.old admitted arrivals result row.new }
{
    let before = row[0];
    let both = both_forecasts(row, near, last, delay);
    let totals = admit(both.soon, both.late, before, buffer, admitted, arrivals);
    put_newest(row, last, totals.departed);
    row[SOON] = both.soon;
    row[LATE] = both.late;
    totals
}
