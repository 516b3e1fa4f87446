// A step on the arrays of a device: one slot's totals, and the levels after it.
ghost use Rattle.std.specs.Prelude.{◌≡◌};
ghost use Rattle.refusals.specs.Limits.{delay_limit, buffer_limit};
ghost use Rattle.device.specs.Levels.{buckets_of, BucketStep};

use crate::levels::{admit, depart, raise};
use live_step::step::{Totals, within_buffer};

// Takes one slot on lent levels: they are raised, and the totals after the slot are answered.
pub fn bucket_step(
    levels: &mut [u64; 4],
    rates: &[u32; 4],
    bursts: &[u32; 4],
    buckets: u32,
    delay: u32,
    buffer: u64,
    admitted: u64,
    departed: u64,
    arrivals: u64,
) -> Totals
    ensures { BucketStep (delay_limit delay) (buffer_limit buffer) levels.old rates.now bursts.now (buckets_of buckets) admitted departed arrivals result levels.new }
{
    // The number of buckets, or the nearest of 1 to 4 where no set-up gave it.
    let count = buckets.clamp(1, 4) as usize;
    let arrived = admitted.saturating_add(arrivals);
    let least = admit(levels, rates, count, delay, arrived);
    let total = within_buffer(least, departed, buffer);
    let gone = depart(levels, rates, count, total);
    raise(levels, rates, bursts, total);
    Totals {
        admitted: total,
        departed: gone,
    }
}
