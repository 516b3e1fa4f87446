// What is refused of a port's run.
ghost use Rattle.std.specs.Prelude.{◌≡◌, ◌*◌, ◌≤◌, ◌↔◌, IsTrue, EachIndex, slice_index};
ghost use Rattle.orders.specs.Answered.{number_given};
ghost use Rattle.orders.specs.Refusal.{◌or_else◌};
ghost use Rattle.refusals.specs.Lengths.{lists_refusal};
ghost use Rattle.port.specs.Refusals.{streams_refusal, deadlines_refusal, port_refusal};

use orders::refusal::Refusal;
use refusals::lengths::{counts_refusal, list_refusal};

// The most streams of a port.
pub const MOST_STREAMS: usize = 8;

// The longest run, in slots.
pub const LONGEST_RUN: u32 = 256;

// The longest deadline, in slots.
pub const LONGEST_DEADLINE: u32 = 64;

// 21: streams outside 1 to 8, or a run above 256 slots.
pub fn streams_refusal(streams: usize, slots: u32) -> Result<(), Refusal>
    ensures { number_given result ≡ streams_refusal streams slots }
{
    if streams < 1 || streams > MOST_STREAMS || slots > LONGEST_RUN {
        Err(Refusal::PortSize)
    } else {
        Ok(())
    }
}

fn timely(deadlines: &[u32]) -> bool
    ensures { IsTrue result ↔ EachIndex deadlines.now (λ i. slice_index deadlines.now i ≤ 64) }
{
    deadlines
        .iter()
        .all(|deadline| *deadline <= LONGEST_DEADLINE)
}

// 22: a deadline above 64.
pub fn deadlines_refusal(deadlines: &[u32]) -> Result<(), Refusal>
    ensures { number_given result ≡ deadlines_refusal deadlines.now }
{
    if timely(deadlines) {
        Ok(())
    } else {
        Err(Refusal::Deadline)
    }
}

// 11, for the input and both lists.
#[tactic(auto, using(orders::proofs::Given::refused_first, orders::proofs::Given::passed_first))]
fn lists_refusal(
    streams: usize,
    slots: u32,
    input: usize,
    sent: usize,
    late: usize,
) -> Result<(), Refusal>
    requires { (streams ≤ 8) × (slots ≤ 256) }
    ensures { number_given result ≡ (lists_refusal (streams * slots) input or_else lists_refusal (streams * slots) sent or_else lists_refusal streams late) }
{
    let places = streams * slots as usize;
    list_refusal(places, input)?;
    list_refusal(places, sent)?;
    list_refusal(streams, late)
}

// 21, 22, 11, 8.
#[tactic(auto, unfolding(crate::specs::Refusals::port_refusal), using(orders::proofs::Given::refused_first, orders::proofs::Given::passed_first))]
pub fn port_refusal(
    deadlines: &[u32],
    slots: u32,
    input: &[u32],
    sent: usize,
    late: usize,
) -> Result<(), Refusal>
    ensures { number_given result ≡ port_refusal deadlines.now slots input.now sent late }
{
    let streams = deadlines.len();
    streams_refusal(streams, slots)?;
    deadlines_refusal(deadlines)?;
    lists_refusal(streams, slots, input.len(), sent, late)?;
    counts_refusal(input)
}
