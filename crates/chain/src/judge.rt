// What is refused of a chain that is asked for or checked.
ghost use Rattle.std.specs.Prelude.{◌≡◌, suc, length};
ghost use Rattle.orders.specs.Answered.{number_given};
ghost use Rattle.chain.specs.Refusals.{beyond_refusal, chain_lists_refusal, chain_refusal};

use numbers::count::{Packets, Slots};
use orders::refusal::Refusal;
use refusals::lengths::{counts_refusal, length_refusal, list_refusal};
use refusals::limits::set_up_refusal;

// 18: the slot is above the trace's length.
#[tactic(auto, unfolding(crate::specs::Refusals::beyond_refusal, orders::specs::Answered::number_given, orders::specs::Answered::refusal_number), using(orders::proofs::Refusals::when_over, orders::proofs::Refusals::when_within))]
fn beyond_refusal(slots: usize, slot: Slots) -> Result<(), Refusal>
    ensures { number_given result ≡ beyond_refusal slots slot.0 }
{
    if slot.0 as usize > slots {
        Err(Refusal::SlotBeyondTrace)
    } else {
        Ok(())
    }
}

// 11: a chain list that is not one longer than the trace.
#[tactic(auto, unfolding(crate::specs::Refusals::chain_lists_refusal), using(orders::proofs::Given::refused_first, orders::proofs::Given::passed_first))]
fn lists_refusal(
    arrivals: &[u32],
    slots: usize,
    marks: usize,
    amounts: usize,
) -> Result<(), Refusal>
    ensures { number_given result ≡ chain_lists_refusal (suc (length arrivals.now)) slots marks amounts }
{
    let long = arrivals.len() + 1;
    list_refusal(long, slots)?;
    list_refusal(long, marks)?;
    list_refusal(long, amounts)
}

// Set-up, then 10, 11, 8, 18.
#[tactic(auto, unfolding(crate::specs::Refusals::chain_refusal), using(orders::proofs::Given::refused_first, orders::proofs::Given::passed_first))]
pub fn chain_refusal(
    table: &[u32],
    delay: Slots,
    buffer: Packets,
    arrivals: &[u32],
    slot: Slots,
    slots: usize,
    marks: usize,
    amounts: usize,
) -> Result<(), Refusal>
    ensures { number_given result ≡ chain_refusal table.now delay.0 buffer.0 arrivals.now slot.0 slots marks amounts }
{
    set_up_refusal(table, delay, buffer)?;
    length_refusal(arrivals.len())?;
    lists_refusal(arrivals, slots, marks, amounts)?;
    counts_refusal(arrivals)?;
    beyond_refusal(arrivals.len(), slot)
}
