// What is refused of a trace and of lent lists.
ghost use Rattle.std.specs.Prelude.{◌≡◌};
ghost use Rattle.orders.specs.Answered.{number_given};
ghost use Rattle.orders.specs.Refusal.{◌or_else◌};
ghost use Rattle.refusals.specs.Lengths.{length_refusal, short_refusal, lists_refusal, counts_refusal};

use numbers::size::{LONGEST_TRACE, MOST_PACKETS_32, SHORT_TRACE};
use orders::refusal::Refusal;

// 10: more than 4,096 slots.
#[tactic(auto, unfolding(crate::specs::Lengths::length_refusal, orders::specs::Answered::number_given, orders::specs::Answered::refusal_number), using(orders::proofs::Refusals::when_over, orders::proofs::Refusals::when_within))]
pub fn length_refusal(slots: usize) -> Result<(), Refusal>
    ensures { number_given result ≡ length_refusal slots }
{
    if slots > LONGEST_TRACE {
        Err(Refusal::TooManySlots)
    } else {
        Ok(())
    }
}

// 24: more than five slots.
#[tactic(auto, unfolding(crate::specs::Lengths::short_refusal, orders::specs::Answered::number_given, orders::specs::Answered::refusal_number), using(orders::proofs::Refusals::when_over, orders::proofs::Refusals::when_within))]
pub fn short_refusal(slots: usize) -> Result<(), Refusal>
    ensures { number_given result ≡ short_refusal slots }
{
    if slots > SHORT_TRACE {
        Err(Refusal::NotShort)
    } else {
        Ok(())
    }
}

// 11: a lent list not as long as the trace.
#[tactic(auto, unfolding(crate::specs::Lengths::lists_refusal, orders::specs::Answered::number_given, orders::specs::Answered::refusal_number), using(orders::proofs::Refusals::when_other, orders::proofs::Refusals::when_same))]
pub fn list_refusal(slots: usize, list: usize) -> Result<(), Refusal>
    ensures { number_given result ≡ lists_refusal slots list }
{
    if list == slots {
        Ok(())
    } else {
        Err(Refusal::ListLength)
    }
}

// 11: one of three lists not as long as the trace.
#[tactic(auto, using(orders::proofs::Given::refused_first, orders::proofs::Given::passed_first))]
pub fn lists_refusal(
    slots: usize,
    admitted: usize,
    dropped: usize,
    departed: usize,
) -> Result<(), Refusal>
    ensures { number_given result ≡ (lists_refusal slots admitted or_else lists_refusal slots dropped or_else lists_refusal slots departed) }
{
    list_refusal(slots, admitted)?;
    list_refusal(slots, dropped)?;
    list_refusal(slots, departed)
}

// 8: a slot with more than 1,000,000 arrivals. Without an early end several slots can be compared at once.
pub fn counts_refusal(arrivals: &[u32]) -> Result<(), Refusal>
    ensures { number_given result ≡ counts_refusal arrivals.now }
{
    let mut judged = Ok(());
    for count in arrivals {
        if *count > MOST_PACKETS_32 {
            judged = Err(Refusal::TooManyPackets);
        }
    }
    judged
}
