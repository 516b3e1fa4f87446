// What is refused of a pencil's run.
ghost use Rattle.std.specs.Prelude.{◌≡◌};
ghost use Rattle.orders.specs.Answered.{number_given};
ghost use Rattle.pencil.specs.PencilRun.{pencil_refusal};

use numbers::count::{Packets, Slots};
use orders::refusal::Refusal;
use refusals::lengths::{counts_refusal, lists_refusal, short_refusal};
use refusals::limits::set_up_refusal;

// Set-up, 24, 11, 8.
#[tactic(auto, unfolding(crate::specs::PencilRun::pencil_refusal), using(orders::proofs::Given::refused_first, orders::proofs::Given::passed_first))]
pub fn pencil_refusal(
    table: &[u32],
    delay: Slots,
    buffer: Packets,
    arrivals: &[u32],
    admitted: usize,
    dropped: usize,
    departed: usize,
) -> Result<(), Refusal>
    ensures { number_given result ≡ pencil_refusal table.now delay.0 buffer.0 arrivals.now admitted dropped departed }
{
    let slots = arrivals.len();
    set_up_refusal(table, delay, buffer)?;
    short_refusal(slots)?;
    lists_refusal(slots, admitted, dropped, departed)?;
    counts_refusal(arrivals)
}
