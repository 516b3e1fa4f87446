// Judging a table: the first refusal that applies in document 01's order.
ghost use Rattle.std.specs.Prelude.{◌≡◌, drop};
ghost use Rattle.orders.specs.Answered.{number_given};
ghost use Rattle.refusals.specs.Table.{last_window, last_refusal, zero_refusal, entries_refusal, values_refusal, table_refusal};

use numbers::size::{LAST_WINDOW, MOST_PACKETS_32};
use orders::refusal::Refusal;

// 1 where the last window L is not 1 to 64.
pub fn last_refusal(last: usize) -> Result<(), Refusal>
    ensures { number_given result ≡ last_refusal last }
{
    if last < 1 || last > LAST_WINDOW {
        Err(Refusal::LastWindow)
    } else {
        Ok(())
    }
}

// 3 or 4 at the first entry from window 1 on that is too large or below the one before.
fn entries_refusal(table: &[u32]) -> Result<(), Refusal>
    ensures { number_given result ≡ entries_refusal 0 (drop 1 table.now) }
{
    let Some((_, entries)) = table.split_first() else {
        return Ok(());
    };
    let mut before: u32 = 0;
    for entry in entries {
        if *entry > MOST_PACKETS_32 {
            return Err(Refusal::EntryTooLarge);
        }
        if *entry < before {
            return Err(Refusal::EntryFalls);
        }
        before = *entry;
    }
    Ok(())
}

// 2 where f(0) is not 0.
fn zero_refusal(table: &[u32]) -> Result<(), Refusal>
    ensures { number_given result ≡ zero_refusal table.now }
{
    match table {
        [] | [0, ..] => Ok(()),
        _ => Err(Refusal::FirstEntry),
    }
}

// 2, 3 or 4: what is wrong with the numbers of a table, whatever its length.
#[tactic(auto, using(orders::proofs::Given::refused_first, orders::proofs::Given::passed_first))]
pub fn values_refusal(table: &[u32]) -> Result<(), Refusal>
    ensures { number_given result ≡ values_refusal table.now }
{
    zero_refusal(table)?;
    entries_refusal(table)
}

// L, 0 where the table has no entries.
pub fn last_window(table: &[u32]) -> usize
    ensures { result ≡ last_window table.now }
{
    table.len().saturating_sub(1)
}

// 1, then 2, 3 or 4.
#[tactic(auto, using(orders::proofs::Given::refused_first, orders::proofs::Given::passed_first))]
pub fn table_refusal(table: &[u32]) -> Result<(), Refusal>
    ensures { number_given result ≡ table_refusal table.now }
{
    last_refusal(last_window(table))?;
    values_refusal(table)
}
