// A leaky-bucket profile: one list of numbers, rate and burst of each bucket in turn, and what is refused of it.
ghost use Rattle.std.specs.Prelude.{◌≡◌, get_or};
ghost use Rattle.calculus.specs.Numbers.Lists.{list_of};
ghost use Rattle.orders.specs.Answered.{number_given};
ghost use Rattle.device.specs.Profile.{rate_of, burst_of, buckets_refusal, numbers_refusal, profile_refusal};

use numbers::size::MOST_PACKETS_32;
use orders::refusal::Refusal;

// 15: half the entries are not 1 to 4 buckets, or the entries are odd in number.
#[tactic(auto, unfolding(orders::specs::Answered::number_given, orders::specs::Answered::refusal_number), using(crate::proofs::ProfileJudged::buckets_wrong, crate::proofs::ProfileJudged::buckets_fine))]
fn buckets_refusal(entries: usize) -> Result<(), Refusal>
    ensures { number_given result ≡ buckets_refusal entries }
{
    let buckets = entries / 2;
    if entries % 2 != 0 || buckets < 1 || buckets > 4 {
        Err(Refusal::BucketCount)
    } else {
        Ok(())
    }
}

// 16: a rate or burst above 1,000,000.
fn numbers_refusal(profile: &[u32]) -> Result<(), Refusal>
    ensures { number_given result ≡ numbers_refusal profile.now }
{
    if profile.iter().any(|number| *number > MOST_PACKETS_32) {
        Err(Refusal::RateOrBurst)
    } else {
        Ok(())
    }
}

// 15, then 16.
#[tactic(auto, unfolding(crate::specs::Profile::profile_refusal), using(orders::proofs::Given::refused_first, orders::proofs::Given::passed_first))]
pub fn profile_refusal(profile: &[u32]) -> Result<(), Refusal>
    ensures { number_given result ≡ profile_refusal profile.now }
{
    buckets_refusal(profile.len())?;
    numbers_refusal(profile)
}

fn number_at(profile: &[u32], place: usize) -> u32
    ensures { result ≡ get_or profile.now place 0 }
{
    profile.get(place).copied().unwrap_or(0)
}

// The rates, 0 past the last bucket.
pub fn rates_of(profile: &[u32]) -> [u32; 4]
    ensures { result ≡ list_of (rate_of profile.now) 4 }
{
    [
        number_at(profile, 0),
        number_at(profile, 2),
        number_at(profile, 4),
        number_at(profile, 6),
    ]
}

// The bursts, 0 past the last bucket.
pub fn bursts_of(profile: &[u32]) -> [u32; 4]
    ensures { result ≡ list_of (burst_of profile.now) 4 }
{
    [
        number_at(profile, 1),
        number_at(profile, 3),
        number_at(profile, 5),
        number_at(profile, 7),
    ]
}

// The levels of full buckets.
pub fn full_levels(profile: &[u32]) -> [u64; 4]
    ensures { result ≡ list_of (burst_of profile.now) 4 }
{
    bursts_of(profile).map(|burst| u64::from(burst))
}
