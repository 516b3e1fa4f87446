// The slot over lent parts: the row, the windows and the numbers of a regulator, changed in place. Nothing is copied, so
// that a slot costs what its sums cost.
ghost use Rattle.std.specs.Prelude.{◌≡◌, ◌+◌, ◌≤◌, min, max};
ghost use Rattle.numbers.specs.LeastSum.{top};
ghost use Rattle.refusals.specs.Limits.{delay_limit};
ghost use Rattle.live_step.specs.Answer.{answer_given};
ghost use Rattle.live_step.specs.Fill.{form_fill, bench_fill};
ghost use Rattle.live_step.specs.Step.{forecast_at, forecast_late};
ghost use Rattle.regulator.specs.Regulator.{regulator_of, SlotOn};

use crate::step::step;
use live_step::record::{SlotRecord, record_of};
use live_step::step::{Forecasts, forecast, forecast_late};
use numbers::count::{Packets, Slots};
use numbers::size::{LAST_WINDOW, ROW_PLACES};
use orders::refusal::Refusal;
use refusals::limits::{arrivals_refusal, slots_refusal};

// The forecasts of the next slot, from the parts of a regulator that are lent to be read. One after the other: what takes both at
// once, in the step, moves the row on.
pub fn forecasts_on(row: &[u64; ROW_PLACES], near: &[u32; 129], last: u32, delay: u32) -> Forecasts
    ensures { (result.soon ≡ forecast_at (min last 64) near.now row.now 0) × (result.late ≡ forecast_late (min last 64) (delay_limit delay) near.now row.now) }
{
    let used = (last as usize).min(LAST_WINDOW);
    Forecasts {
        soon: forecast(row, near, used),
        late: forecast_late(row, near, used, delay),
    }
}

// Raises both peaks to the fills of a record that a step gave: no sum of it leaves 64 bits, and no more departs than is there.
fn raise_peaks(counted: SlotRecord, form_peak: &mut u64, bench_peak: &mut u64)
    requires { (counted.held_before + counted.admitted ≤ top) × (counted.departed ≤ counted.held_before + counted.admitted) }
    ensures { (form_peak.new ≡ max form_peak.old (form_fill counted)) × (bench_peak.new ≡ max bench_peak.old (bench_fill counted)) }
{
    let full = counted.held_before + counted.admitted;
    *form_peak = (*form_peak).max(full - counted.departed);
    *bench_peak = (*bench_peak).max(full);
}

// The slot on a regulator that is lent part by part, and changed in place.
pub fn slot_on(
    row: &mut [u64; ROW_PLACES],
    near: &[u32; 129],
    last: u32,
    delay: u32,
    buffer: u64,
    slots: &mut u32,
    admitted: &mut u64,
    form_peak: &mut u64,
    bench_peak: &mut u64,
    arrivals: u64,
) -> Result<SlotRecord, Refusal>
    ensures { SlotOn (regulator_of last delay buffer near.now slots.old admitted.old form_peak.old bench_peak.old row.old) arrivals (answer_given result) slots.new admitted.new form_peak.new bench_peak.new row.new }
{
    let taken = *slots;
    // One after the other, and not by `slot_refusal`, so that each is one comparison.
    arrivals_refusal(Packets(arrivals))?;
    slots_refusal(Slots(taken))?;
    // Here, and not after the step, so that `taken` need not be kept through it.
    *slots = taken + 1;
    let before = row[0];
    let total = *admitted;
    let used = (last as usize).min(LAST_WINDOW);
    let totals = step(row, near, used, delay, buffer, total, arrivals);
    *admitted = totals.admitted;
    let counted = record_of(totals, total, before, arrivals);
    raise_peaks(counted, form_peak, bench_peak);
    Ok(counted)
}
