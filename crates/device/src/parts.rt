// The slot over lent parts: the levels, totals and peaks of a device, changed in place.
ghost use Rattle.live_step.specs.Answer.{answer_given};
ghost use Rattle.device.specs.Device.{device_of, DeviceOn};

use crate::step::bucket_step;
use live_step::fill::{bench_fill, form_fill};
use live_step::record::{SlotRecord, record_of};
use numbers::count::{Packets, Slots};
use orders::refusal::Refusal;
use refusals::limits::slot_refusal;

// The slot on a device that is lent part by part, and changed in place.
pub fn device_slot_on(
    levels: &mut [u64; 4],
    rates: &[u32; 4],
    bursts: &[u32; 4],
    buckets: u32,
    delay: u32,
    buffer: u64,
    slots: &mut u32,
    admitted: &mut u64,
    departed: &mut u64,
    form_peak: &mut u64,
    bench_peak: &mut u64,
    arrivals: u64,
) -> Result<SlotRecord, Refusal>
    ensures { DeviceOn (device_of buckets delay buffer rates.now bursts.now slots.old admitted.old departed.old levels.old form_peak.old bench_peak.old) arrivals (answer_given result) slots.new admitted.new departed.new levels.new form_peak.new bench_peak.new }
{
    let taken = *slots;
    slot_refusal(Packets(arrivals), Slots(taken))?;
    let total = *admitted;
    let gone = *departed;
    let totals = bucket_step(
        levels, rates, bursts, buckets, delay, buffer, total, gone, arrivals,
    );
    let counted = record_of(totals, total, gone, arrivals);
    *slots = taken + 1;
    *admitted = totals.admitted;
    *departed = totals.departed;
    *form_peak = (*form_peak).max(form_fill(counted));
    *bench_peak = (*bench_peak).max(bench_fill(counted));
    Ok(counted)
}
