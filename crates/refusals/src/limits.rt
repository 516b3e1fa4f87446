// The limits, and what is refused of them and of a slot's arrivals.
ghost use Rattle.std.specs.Prelude.{◌≡◌};
ghost use Rattle.orders.specs.Answered.{number_given};
ghost use Rattle.refusals.specs.Limits.{delay_refusal, buffer_refusal, both_refusal, limits_refusal, arrivals_refusal, slots_refusal, slot_refusal, set_up_refusal};

use crate::table::table_refusal;
use numbers::count::{Packets, Slots};
use numbers::size::{LONGEST_DELAY, MOST_PACKETS, MOST_SLOTS};
use orders::refusal::Refusal;

// A delay or a buffer limit that is none. C gives these numbers, and a regulator that C reads keeps them: they are no `Option`.
pub const NO_DELAY: u32 = 255;

pub const NO_BUFFER: u64 = 4_294_967_295;

// The same in 32 bits: a constant has one type.
pub const NO_BUFFER_32: u32 = 4_294_967_295;

// 6: the delay is neither 0 to 64 nor none.
pub fn delay_refusal(delay: Slots) -> Result<(), Refusal>
    ensures { number_given result ≡ delay_refusal delay.0 }
{
    if delay.0 <= LONGEST_DELAY || delay.0 == NO_DELAY {
        Ok(())
    } else {
        Err(Refusal::DelayLimit)
    }
}

// 7: the buffer is neither 0 to 1,000,000 nor none.
pub fn buffer_refusal(buffer: Packets) -> Result<(), Refusal>
    ensures { number_given result ≡ buffer_refusal buffer.0 }
{
    if buffer.0 <= MOST_PACKETS || buffer.0 == NO_BUFFER {
        Ok(())
    } else {
        Err(Refusal::BufferLimit)
    }
}

// 23: both limits are none.
pub fn both_refusal(delay: Slots, buffer: Packets) -> Result<(), Refusal>
    ensures { number_given result ≡ both_refusal delay.0 buffer.0 }
{
    if delay.0 == NO_DELAY && buffer.0 == NO_BUFFER {
        Err(Refusal::NoLimit)
    } else {
        Ok(())
    }
}

// 6, then 7, then 23.
#[tactic(auto, unfolding(crate::specs::Limits::limits_refusal), using(orders::proofs::Given::refused_first, orders::proofs::Given::passed_first))]
pub fn limits_refusal(delay: Slots, buffer: Packets) -> Result<(), Refusal>
    ensures { number_given result ≡ limits_refusal delay.0 buffer.0 }
{
    delay_refusal(delay)?;
    buffer_refusal(buffer)?;
    both_refusal(delay, buffer)
}

// 8: more than 1,000,000 arrivals.
#[tactic(auto, unfolding(crate::specs::Limits::arrivals_refusal, orders::specs::Answered::number_given, orders::specs::Answered::refusal_number), using(orders::proofs::Refusals::when_over, orders::proofs::Refusals::when_within))]
pub fn arrivals_refusal(arrivals: Packets) -> Result<(), Refusal>
    ensures { number_given result ≡ arrivals_refusal arrivals.0 }
{
    if arrivals.0 > MOST_PACKETS {
        Err(Refusal::TooManyPackets)
    } else {
        Ok(())
    }
}

// 9: 1,000,000 slots already taken.
#[tactic(auto, unfolding(crate::specs::Limits::slots_refusal, orders::specs::Answered::number_given, orders::specs::Answered::refusal_number), using(orders::proofs::Refusals::when_from, orders::proofs::Refusals::when_below))]
pub fn slots_refusal(slots: Slots) -> Result<(), Refusal>
    ensures { number_given result ≡ slots_refusal slots.0 }
{
    if slots.0 >= MOST_SLOTS {
        Err(Refusal::NoSlotLeft)
    } else {
        Ok(())
    }
}

// 8, then 9.
#[tactic(auto, unfolding(crate::specs::Limits::slot_refusal), using(orders::proofs::Given::refused_first, orders::proofs::Given::passed_first))]
pub fn slot_refusal(arrivals: Packets, slots: Slots) -> Result<(), Refusal>
    ensures { number_given result ≡ slot_refusal arrivals.0 slots.0 }
{
    arrivals_refusal(arrivals)?;
    slots_refusal(slots)
}

// 1 to 4, then 6, 7, 23.
#[tactic(auto, unfolding(crate::specs::Limits::set_up_refusal), using(orders::proofs::Given::refused_first, orders::proofs::Given::passed_first))]
pub fn set_up_refusal(table: &[u32], delay: Slots, buffer: Packets) -> Result<(), Refusal>
    ensures { number_given result ≡ set_up_refusal table.now delay.0 buffer.0 }
{
    table_refusal(table)?;
    limits_refusal(delay, buffer)
}
