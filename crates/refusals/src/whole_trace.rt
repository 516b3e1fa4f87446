// What is refused of a whole trace.
ghost use Rattle.std.specs.Prelude.{◌≡◌};
ghost use Rattle.orders.specs.Answered.{number_given};
ghost use Rattle.refusals.specs.WholeTrace.{trace_refusal, run_refusal, alone_refusal};

use crate::lengths::{counts_refusal, length_refusal, lists_refusal};
use crate::limits::set_up_refusal;
use crate::table::table_refusal;
use numbers::count::{Packets, Slots};
use orders::refusal::Refusal;

// 10, 11, 8.
#[tactic(auto, unfolding(crate::specs::WholeTrace::trace_refusal), using(orders::proofs::Given::refused_first, orders::proofs::Given::passed_first))]
fn trace_refusal(
    arrivals: &[u32],
    admitted: usize,
    dropped: usize,
    departed: usize,
) -> Result<(), Refusal>
    ensures { number_given result ≡ trace_refusal arrivals.now admitted dropped departed }
{
    let slots = arrivals.len();
    length_refusal(slots)?;
    lists_refusal(slots, admitted, dropped, departed)?;
    counts_refusal(arrivals)
}

// Set-up, then 10, 11, 8.
#[tactic(auto, unfolding(crate::specs::WholeTrace::run_refusal), using(orders::proofs::Given::refused_first, orders::proofs::Given::passed_first))]
pub fn run_refusal(
    table: &[u32],
    delay: Slots,
    buffer: Packets,
    arrivals: &[u32],
    admitted: usize,
    dropped: usize,
    departed: usize,
) -> Result<(), Refusal>
    ensures { number_given result ≡ run_refusal table.now delay.0 buffer.0 arrivals.now admitted dropped departed }
{
    set_up_refusal(table, delay, buffer)?;
    trace_refusal(arrivals, admitted, dropped, departed)
}

// The regulator alone has no limits to be judged: 1 to 4, then 10, 11, 8.
#[tactic(auto, unfolding(crate::specs::WholeTrace::alone_refusal), using(orders::proofs::Given::refused_first, orders::proofs::Given::passed_first))]
pub fn alone_refusal(
    table: &[u32],
    arrivals: &[u32],
    admitted: usize,
    dropped: usize,
    departed: usize,
) -> Result<(), Refusal>
    ensures { number_given result ≡ alone_refusal table.now arrivals.now admitted dropped departed }
{
    table_refusal(table)?;
    trace_refusal(arrivals, admitted, dropped, departed)
}
