// The run itself: theorem 5.1's totals, slot after slot, on 32 bits, which no total of a trace leaves.
ghost use Rattle.std.specs.Prelude.{◌≡◌, ◌+◌, ◌<◌, length};
ghost use Rattle.calculus.specs.Regulators.Rows.{admitted_row, dropped_row, departed_row};
ghost use Rattle.orders.specs.Answered.{verdict_given};
ghost use Rattle.refusals.specs.Table.{table_refusal};
ghost use Rattle.refusals.specs.Limits.{delay_limit, buffer_limit};
ghost use Rattle.trace.specs.WholeTrace.{Ran, RanAlone};
ghost use Rattle.trace.specs.RunWork.{run_totals, Workable, Windowed};

use crate::forecast::forecast;
use envelope::envelope::near;
use numbers::count::{Packets, Slots};
use orders::refusal::Refusal;
use refusals::limits::{NO_BUFFER_32, NO_DELAY};
use refusals::table::last_window;
use refusals::whole_trace::{alone_refusal, run_refusal};
use settings::limits::{looked_ahead, within_limits};
use settings::table::take;

// Admitted and departed by a slot. `run_totals` names this record, and `totals_with` that of the live step, which has 64 bits.
#[derive(Clone, Copy)]
pub struct Totals {
    pub admitted: u32,
    pub departed: u32,
}

// The totals after a slot, from its two forecasts and the total that departed before it.
fn admit(
    soon: u32,
    late: u32,
    before: u32,
    delay: u32,
    buffer: u32,
    admitted: u32,
    arrivals: u32,
) -> Totals
    requires { admitted + arrivals < 4294967296 }
    ensures { result ≡ run_totals soon late before (delay_limit delay) (buffer_limit buffer) admitted arrivals }
{
    let total = within_limits(admitted + arrivals, late, before, Slots(delay), buffer);
    Totals {
        admitted: total,
        departed: total.min(soon),
    }
}

// f of an accepted table, as far as a run looks.
fn kept_windows(table: &[u32], delay: u32) -> [u32; 129]
    requires { table_refusal table.now ≡ 0 }
    ensures { Windowed table.now delay result }
{
    let envelope = take(table).unwrap();
    let last = last_window(table) + looked_ahead(Slots(delay));
    near(envelope, last).packets
}

// Works the slots one after another, and lists what each admits, drops and lets go.
fn work(
    table: &[u32],
    windows: &[u32],
    delay: u32,
    buffer: u32,
    arrivals: &[u32],
    admitted: &mut [u32],
    dropped: &mut [u32],
    departed: &mut [u32],
)
    requires { Workable table.now delay buffer arrivals.now (length admitted.old) (length dropped.old) (length departed.old) × Windowed table.now delay windows.now }
    ensures { (admitted.new ≡ admitted_row table.now (delay_limit delay) (buffer_limit buffer) arrivals.now) × (dropped.new ≡ dropped_row table.now (delay_limit delay) (buffer_limit buffer) arrivals.now) × (departed.new ≡ departed_row table.now (delay_limit delay) (buffer_limit buffer) arrivals.now) }
{
    let last = last_window(table);
    let ahead = looked_ahead(Slots(delay));
    let mut row = [0; 4160];
    let mut x: u32 = 0;
    let mut y: u32 = 0;
    for t in 0..arrivals.len() {
        let n = arrivals[t];
        let older = 4097 - t;
        let both = forecast(y, &row[older..], windows, last, ahead);
        let totals = admit(both.soon, both.late, y, delay, buffer, x, n);
        let taken = totals.admitted - x;
        admitted[t] = taken;
        dropped[t] = n - taken;
        departed[t] = totals.departed - y;
        x = totals.admitted;
        y = totals.departed;
        let place = 4095 - t;
        row[place] = y;
    }
}

// Runs a whole trace: the three lists are filled, or the call is refused and none of them is written.
pub fn run(
    table: &[u32],
    delay: Slots,
    buffer: Packets,
    arrivals: &[u32],
    admitted: &mut [u32],
    dropped: &mut [u32],
    departed: &mut [u32],
) -> Result<(), Refusal>
    ensures { Ran table.now delay.0 buffer.0 arrivals.now admitted.old dropped.old departed.old (verdict_given result) admitted.new dropped.new departed.new }
{
    run_refusal(
        table,
        delay,
        buffer,
        arrivals,
        admitted.len(),
        dropped.len(),
        departed.len(),
    )?;
    let windows = kept_windows(table, delay.0);
    work(
        table,
        &windows,
        delay.0,
        buffer.0 as u32,
        arrivals,
        admitted,
        dropped,
        departed,
    );
    Ok(())
}

// Runs a whole trace through the regulator alone: no limit drops anything. The three lists are filled, or the call is
// refused and none of them is written.
pub fn run_alone(
    table: &[u32],
    arrivals: &[u32],
    admitted: &mut [u32],
    dropped: &mut [u32],
    departed: &mut [u32],
) -> Result<(), Refusal>
    ensures { RanAlone table.now arrivals.now admitted.old dropped.old departed.old (verdict_given result) admitted.new dropped.new departed.new }
{
    alone_refusal(
        table,
        arrivals,
        admitted.len(),
        dropped.len(),
        departed.len(),
    )?;
    let windows = kept_windows(table, NO_DELAY);
    work(
        table,
        &windows,
        NO_DELAY,
        NO_BUFFER_32,
        arrivals,
        admitted,
        dropped,
        departed,
    );
    Ok(())
}
