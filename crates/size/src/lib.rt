// The smallest buffer limit, and the smallest delay limit, at which no more than so many packets of a trace are lost.
#![tactic(auto)]

ghost use Rattle.std.specs.Prelude.{◌≡◌, ◌≤◌};
ghost use Rattle.orders.specs.Answered.{number_given};
ghost use Rattle.size_calculus.specs.Smallest.{loss_with_buffer, loss_with_delay, smallest};
ghost use Rattle.refusals.specs.Limits.{delay_limit, buffer_limit};
ghost use Rattle.size.specs.Size.{counted_refusal, buffer_size_refusal, delay_size_refusal, size_answer, size_given};
ghost use Rattle.size.specs.Beside.{kept_refusal, beside_refusal, greatest_beside, loss_beside, size_beside};

use numbers::count::{Packets, Slots};
use numbers::size::{LONGEST_DELAY, MOST_PACKETS_32};
use orders::refusal::Refusal;
use refusals::lengths::{counts_refusal, length_refusal};
use refusals::limits::{buffer_refusal, delay_refusal};
use refusals::table::table_refusal;
use trace_loss::loss;

// The limit that is kept while the other one is looked for.
#[derive(Clone, Copy)]
enum Kept {
    Delay(Slots),
    Buffer(Packets),
}

// A limit, and what is lost with it by the last slot.
#[derive(Clone, Copy)]
pub struct LimitLoss {
    pub limit: u32,
    pub lost: u32,
}

// The smallest limit; or the greatest, which still loses more.
#[derive(Clone, Copy)]
pub enum Size {
    Found(LimitLoss),
    NotFound(LimitLoss),
}

// 10, then 8.
#[tactic(auto, unfolding(crate::specs::Size::counted_refusal), using(orders::proofs::Given::refused_first, orders::proofs::Given::passed_first))]
fn counted_refusal(arrivals: &[u32]) -> Result<(), Refusal>
    ensures { number_given result ≡ counted_refusal arrivals.now }
{
    length_refusal(arrivals.len())?;
    counts_refusal(arrivals)
}

// 6 for a delay limit, 7 for a buffer limit.
fn kept_refusal(kept: Kept) -> Result<(), Refusal>
    ensures { number_given result ≡ kept_refusal kept }
{
    match kept {
        Kept::Delay(delay) => delay_refusal(delay),
        Kept::Buffer(buffer) => buffer_refusal(buffer),
    }
}

// 1 to 4, then 6 or 7, then 10, 8.
fn size_refusal(table: &[u32], kept: Kept, arrivals: &[u32]) -> Result<(), Refusal>
    ensures { number_given result ≡ beside_refusal table.now kept arrivals.now }
{
    table_refusal(table)?;
    kept_refusal(kept)?;
    counted_refusal(arrivals)
}

// The greatest of the limits that are looked through.
fn greatest_beside(kept: Kept) -> u32
    ensures { result ≡ greatest_beside kept }
{
    match kept {
        Kept::Delay(_) => MOST_PACKETS_32,
        Kept::Buffer(_) => LONGEST_DELAY,
    }
}

// What is lost by the last slot with one of these limits.
fn loss_beside(table: &[u32], kept: Kept, arrivals: &[u32], limit: u32) -> u32
    requires { (beside_refusal table.now kept arrivals.now ≡ 0) × (limit ≤ greatest_beside kept) }
    ensures { result ≡ loss_beside table.now kept arrivals.now limit }
{
    match kept {
        Kept::Delay(delay) => loss(table, delay, Packets(u64::from(limit)), arrivals),
        Kept::Buffer(buffer) => loss(table, Slots(limit), buffer, arrivals),
    }
}

// By halving, since what is lost never grows with the limit: at most 20 runs for a buffer limit and 7 for a delay limit. The loop steps
// by what a run loses.
fn halve(table: &[u32], kept: Kept, arrivals: &[u32], most: u32) -> u32
    requires { beside_refusal table.now kept arrivals.now ≡ 0 }
    ensures { result ≡ smallest (greatest_beside kept) (loss_beside table.now kept arrivals.now) most }
{
    let mut low: u32 = 0;
    let mut high: u32 = greatest_beside(kept) + 1;
    while low < high {
        let limit = low + (high - low) / 2;
        if loss_beside(table, kept, arrivals, limit) <= most {
            high = limit;
        } else {
            low = limit + 1;
        }
    }
    low
}

// The smallest limit at which at most so many are lost, and what is lost with it.
fn size_beside(table: &[u32], kept: Kept, arrivals: &[u32], most: u32) -> Result<Size, Refusal>
    ensures { size_given result ≡ size_beside table.now kept arrivals.now most }
{
    size_refusal(table, kept, arrivals)?;
    let greatest = greatest_beside(kept);
    let limit = halve(table, kept, arrivals, most);
    if limit > greatest {
        let lost = loss_beside(table, kept, arrivals, greatest);
        return Ok(Size::NotFound(LimitLoss {
            limit: greatest,
            lost,
        }));
    }
    let lost = loss_beside(table, kept, arrivals, limit);
    Ok(Size::Found(LimitLoss { limit, lost }))
}

// The smallest buffer limit of 0 to 1,000,000 beside a delay limit.
pub fn smallest_buffer(
    table: &[u32],
    delay: Slots,
    arrivals: &[u32],
    most: u32,
) -> Result<Size, Refusal>
    ensures { size_given result ≡ size_answer (buffer_size_refusal table.now delay.0 arrivals.now) 1000000 (loss_with_buffer table.now (delay_limit delay.0) arrivals.now) most }
{
    size_beside(table, Kept::Delay(delay), arrivals, most)
}

// The smallest delay limit of 0 to 64 beside a buffer limit.
pub fn smallest_delay(
    table: &[u32],
    buffer: Packets,
    arrivals: &[u32],
    most: u32,
) -> Result<Size, Refusal>
    ensures { size_given result ≡ size_answer (delay_size_refusal table.now buffer.0 arrivals.now) 64 (loss_with_delay table.now (buffer_limit buffer.0) arrivals.now) most }
{
    size_beside(table, Kept::Buffer(buffer), arrivals, most)
}
