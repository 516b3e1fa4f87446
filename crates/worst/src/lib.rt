// The trace that loses most within n slots, at most p in each and at most N in all.
#![tactic(auto)]

ghost use Rattle.std.specs.Prelude.{◌≡◌, length};
ghost use Rattle.orders.specs.Answered.{number_given};
ghost use Rattle.worst_calculus.specs.WorstTrace.{worst_trace};
ghost use Rattle.worst.specs.Worst.{most_refusal, worst_refusal, worst_given, WorstTold};

use numbers::count::{Packets, Slots};
use numbers::size::MOST_PACKETS_32;
use orders::refusal::Refusal;
use refusals::lengths::{length_refusal, list_refusal};
use refusals::limits::set_up_refusal;
use trace_loss::loss;

// 8: a most per slot above 1,000,000.
#[tactic(auto, unfolding(crate::specs::Worst::most_refusal, orders::specs::Answered::number_given, orders::specs::Answered::refusal_number), using(orders::proofs::Refusals::when_over, orders::proofs::Refusals::when_within))]
fn most_refusal(most: u32) -> Result<(), Refusal>
    ensures { number_given result ≡ most_refusal most }
{
    if most > MOST_PACKETS_32 {
        Err(Refusal::TooManyPackets)
    } else {
        Ok(())
    }
}

// Set-up, 10, 11, 8.
#[tactic(auto, unfolding(crate::specs::Worst::worst_refusal), using(orders::proofs::Given::refused_first, orders::proofs::Given::passed_first))]
fn worst_refusal(
    table: &[u32],
    delay: Slots,
    buffer: Packets,
    slots: usize,
    most: u32,
    places: usize,
) -> Result<(), Refusal>
    ensures { number_given result ≡ worst_refusal table.now delay.0 buffer.0 slots most places }
{
    set_up_refusal(table, delay, buffer)?;
    length_refusal(slots)?;
    list_refusal(slots, places)?;
    most_refusal(most)
}

// p in each slot until N is used up, the remainder, then 0.
fn write(most: u32, all: u32, list: &mut [u32])
    ensures { list.new ≡ worst_trace (length list.old) most all }
{
    let mut left = all;
    for place in list {
        *place = most.min(left);
        left -= *place;
    }
}

// Writes the trace that loses most and tells its loss. A refused call leaves the list as it is.
pub fn worst(
    table: &[u32],
    delay: Slots,
    buffer: Packets,
    slots: usize,
    most: u32,
    all: u32,
    list: &mut [u32],
) -> Result<u32, Refusal>
    ensures { WorstTold table.now delay.0 buffer.0 slots most all list.old (worst_given result) list.new }
{
    worst_refusal(table, delay, buffer, slots, most, list.len())?;
    write(most, all, list);
    Ok(loss(table, delay, buffer, list))
}
