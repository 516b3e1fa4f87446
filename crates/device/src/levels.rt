// What each bucket does in a slot: it gains its rate, and cuts down what is admitted and what departs.
ghost use Rattle.std.specs.Prelude.{◌≡◌, ◌+◌, ◌*◌, ◌≤◌, min, length};
ghost use Rattle.numbers.specs.LeastSum.{top};
ghost use Rattle.refusals.specs.Limits.{delay_limit};
ghost use Rattle.device.specs.Levels.{gained, bucket_admits, buckets_admit, buckets_let, level_after, levels_after};

use refusals::limits::NO_DELAY;

// What a bucket lets depart through the next slot.
fn gain(level: u64, rate: u32) -> u64
    ensures { result ≡ gained level rate }
{
    level.saturating_add(u64::from(rate))
}

// The most packets that wait without being late: the bucket's rate in each slot of the delay limit.
fn timely(rate: u32, delay: u32) -> u64
    ensures { result ≡ rate * delay }
{
    u64::from(rate) * u64::from(delay)
}

// A total cut down to what a bucket admits whose burst is enlarged by rate × d.
fn admit_one(delay: u32, level: u64, rate: u32, total: u64) -> u64
    ensures { result ≡ bucket_admits (delay_limit delay) level rate total }
{
    if delay == NO_DELAY {
        return total;
    }
    total.min(gain(level, rate).saturating_add(timely(rate, delay)))
}

// A total cut down to what each bucket admits.
pub(crate) fn admit(levels: &[u64], rates: &[u32], count: usize, delay: u32, arrived: u64) -> u64
    requires { (count ≤ length levels.now) × (count ≤ length rates.now) }
    ensures { result ≡ buckets_admit (delay_limit delay) levels.now rates.now arrived count }
{
    let mut total = arrived;
    for i in 0..count {
        total = admit_one(delay, levels[i], rates[i], total);
    }
    total
}

// A total cut down to what each bucket lets depart.
pub(crate) fn depart(levels: &[u64], rates: &[u32], count: usize, admitted: u64) -> u64
    requires { (count ≤ length levels.now) × (count ≤ length rates.now) }
    ensures { result ≡ buckets_let levels.now rates.now admitted count }
{
    let mut total = admitted;
    for i in 0..count {
        total = total.min(gain(levels[i], rates[i]));
    }
    total
}

// A bucket's level after the slot: it stays within its burst of what is admitted.
fn level_after(level: u64, rate: u32, burst: u32, admitted: u64) -> u64
    ensures { result ≡ level_after level rate burst admitted }
{
    gain(level, rate).min(admitted.saturating_add(u64::from(burst)))
}

// The levels after the slot, in place.
pub(crate) fn raise(levels: &mut [u64], rates: &[u32], bursts: &[u32], admitted: u64)
    requires { (length levels.old ≡ 4) × (length rates.now ≡ 4) × (length bursts.now ≡ 4) }
    ensures { levels.new ≡ levels_after levels.old rates.now bursts.now admitted }
{
    for i in 0..4 {
        levels[i] = level_after(levels[i], rates[i], bursts[i], admitted);
    }
}
