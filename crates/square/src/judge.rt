// What is refused of a square and of a run over it.
ghost use Rattle.std.specs.Prelude.{◌≡◌, suc, ◌≤◌, get_or};
ghost use Rattle.orders.specs.Answered.{number_given};
ghost use Rattle.square_calculus.specs.Square.{square_entry};
ghost use Rattle.square.specs.RunRefusals.{reach_refusal, square_run_refusal};
ghost use Rattle.square.specs.Refusals.{first_of, below_diagonal_refusal, entry_refusal, diagonal_refusal, rows_refusal, square_refusal};

use numbers::count::{Packets, Slots};
use numbers::size::MOST_PACKETS_32;
use orders::refusal::Refusal;
use refusals::lengths::{counts_refusal, lists_refusal};
use refusals::limits::{NO_DELAY, limits_refusal};

// 19: a non-zero entry of row s on or below the diagonal.
#[tactic(auto, unfolding(orders::specs::Answered::number_given))]
fn zeros_refusal(row: &[u32; 33], s: usize) -> Result<(), Refusal>
    requires { s ≤ 32 }
    ensures { number_given result ≡ first_of (λ t. below_diagonal_refusal (get_or row.now t 0)) (suc s) }
{
    for entry in &row[..s + 1] {
        if *entry != 0 {
            return Err(Refusal::BelowDiagonal);
        }
    }
    Ok(())
}

// 3 or 4: an entry above 1,000,000, or below the one before.
fn entry_refusal(before: u32, entry: u32) -> Result<(), Refusal>
    ensures { number_given result ≡ entry_refusal before entry }
{
    if entry > MOST_PACKETS_32 {
        Err(Refusal::EntryTooLarge)
    } else if entry < before {
        Err(Refusal::EntryFalls)
    } else {
        Ok(())
    }
}

// 3 or 4 along a row.
#[tactic(auto, unfolding(orders::specs::Answered::number_given))]
fn row_refusal(row: &[u32; 33]) -> Result<(), Refusal>
    ensures { number_given result ≡ first_of (λ t. entry_refusal (get_or row.now t 0) (get_or row.now (suc t) 0)) 32 }
{
    // By index: `windows(2)` would name each pair's entries by place too.
    for t in 0..32 {
        entry_refusal(row[t], row[t + 1])?;
    }
    Ok(())
}

// 19: a non-zero entry on or below the diagonal, in any row.
fn diagonal_refusal(square: &[[u32; 33]; 33]) -> Result<(), Refusal>
    ensures { number_given result ≡ diagonal_refusal (square_entry square.now) }
{
    for (s, row) in square.iter().enumerate() {
        zeros_refusal(row, s)?;
    }
    Ok(())
}

// 3 or 4, along the rows.
fn rows_refusal(square: &[[u32; 33]; 33]) -> Result<(), Refusal>
    ensures { number_given result ≡ rows_refusal (square_entry square.now) }
{
    for row in square {
        row_refusal(row)?;
    }
    Ok(())
}

// 19, then 3 and 4 along the rows.
#[tactic(auto, unfolding(crate::specs::Refusals::square_refusal), using(orders::proofs::Given::refused_first, orders::proofs::Given::passed_first))]
pub fn square_refusal(square: [[u32; 33]; 33]) -> Result<(), Refusal>
    ensures { number_given result ≡ square_refusal square }
{
    diagonal_refusal(&square)?;
    rows_refusal(&square)
}

// 20: a trace longer than the square reaches.
fn reach_refusal(delay: u32, slots: usize) -> Result<(), Refusal>
    ensures { number_given result ≡ reach_refusal delay slots }
{
    let reach = if delay == NO_DELAY {
        slots
    } else {
        slots.saturating_add(delay as usize)
    };
    if reach > 32 {
        Err(Refusal::BeyondSquare)
    } else {
        Ok(())
    }
}

// 19, 3 and 4 along the rows, 6, 7, 23, 20, 11, 8.
#[tactic(auto, unfolding(crate::specs::RunRefusals::square_run_refusal), using(orders::proofs::Given::refused_first, orders::proofs::Given::passed_first))]
pub fn run_refusal(
    square: [[u32; 33]; 33],
    delay: Slots,
    buffer: Packets,
    arrivals: &[u32],
    admitted: usize,
    dropped: usize,
    departed: usize,
) -> Result<(), Refusal>
    ensures { number_given result ≡ square_run_refusal square delay.0 buffer.0 arrivals.now admitted dropped departed }
{
    square_refusal(square)?;
    limits_refusal(delay, buffer)?;
    let slots = arrivals.len();
    reach_refusal(delay.0, slots)?;
    lists_refusal(slots, admitted, dropped, departed)?;
    counts_refusal(arrivals)
}
