// What a stream file is refused for, in the file's own order.
ghost use Rattle.std.specs.Prelude.{◌≡◌, ◌≤◌};
ghost use Rattle.orders.specs.Answered.{number_given};
ghost use Rattle.orders.specs.Refusal.{◌or_else◌};
ghost use Rattle.refusals.specs.Lengths.{length_refusal, counts_refusal};
ghost use Rattle.refusals.specs.Table.{values_refusal};
ghost use Rattle.stream.specs.Format.{last, slots, table_of, burst_slots, burst_counts};
ghost use Rattle.stream.specs.Refusals.{few_bytes_refusal, size_refusal, bursts_refusal, sizes_refusal, contents_refusal, file_refusal};

use crate::number::{fill, number_at};
use numbers::count::{Packets, Slots};
use numbers::size::LAST_WINDOW;
use orders::refusal::Refusal;
use refusals::lengths::length_refusal;
use refusals::limits::{arrivals_refusal, buffer_refusal, delay_refusal};
use refusals::table::{last_refusal, values_refusal};

// 12: fewer than 20 bytes.
#[tactic(auto, unfolding(crate::specs::Refusals::few_bytes_refusal, orders::specs::Answered::number_given, orders::specs::Answered::refusal_number), using(orders::proofs::Refusals::when_over, orders::proofs::Refusals::when_within))]
fn few_bytes_refusal(size: usize) -> Result<(), Refusal>
    ensures { number_given result ≡ few_bytes_refusal size }
{
    if size < 20 {
        Err(Refusal::FileTooShort)
    } else {
        Ok(())
    }
}

// 10: more than 4,096 slots or bursts.
#[tactic(auto, using(orders::proofs::Given::refused_first, orders::proofs::Given::passed_first))]
fn lengths_refusal(slots: u32, bursts: u32) -> Result<(), Refusal>
    ensures { number_given result ≡ (length_refusal slots or_else length_refusal bursts) }
{
    length_refusal(slots as usize)?;
    length_refusal(bursts as usize)
}

// 13: the length is not what L and m ask for. Two numbers of 32 bits cannot wrap it.
#[tactic(auto, unfolding(crate::specs::Refusals::size_refusal, orders::specs::Answered::number_given, orders::specs::Answered::refusal_number), using(orders::proofs::Refusals::when_other, orders::proofs::Refusals::when_same))]
fn size_refusal(size: usize, last: u32, bursts: u32) -> Result<(), Refusal>
    ensures { number_given result ≡ size_refusal size last bursts }
{
    let wanted = 20 + 4 * (last as usize + 1) + 8 * (bursts as usize);
    if size == wanted {
        Ok(())
    } else {
        Err(Refusal::FileLength)
    }
}

// The sizes: 12, 1, 10 for T and m, 13.
#[tactic(auto, unfolding(crate::specs::Refusals::sizes_refusal), using(orders::proofs::Given::refused_first, orders::proofs::Given::passed_first))]
fn sizes_refusal(file: &[u8]) -> Result<(), Refusal>
    ensures { number_given result ≡ sizes_refusal file.now }
{
    let last = number_at(file, 0);
    let bursts = number_at(file, 2);
    few_bytes_refusal(file.len())?;
    last_refusal(last as usize)?;
    lengths_refusal(number_at(file, 1), bursts)?;
    size_refusal(file.len(), last, bursts)
}

// 14: a burst's slot is 0, above T, or not above the one before. As 0 stands before the first, no slot 0 is above the one before.
fn bursts_refusal(file: &[u8]) -> Result<(), Refusal>
    ensures { number_given result ≡ bursts_refusal (slots file.now) 0 (burst_slots file.now) }
{
    let from = 6 + number_at(file, 0) as usize;
    let most = number_at(file, 1);
    let bursts = number_at(file, 2) as usize;
    let mut before = 0;
    for k in 0..bursts {
        let slot = number_at(file, from + k);
        if slot <= before || slot > most {
            return Err(Refusal::BurstSlot);
        }
        before = slot;
    }
    Ok(())
}

// 8: a burst of more than 1,000,000 packets.
fn burst_counts_refusal(file: &[u8]) -> Result<(), Refusal>
    ensures { number_given result ≡ counts_refusal (burst_counts file.now) }
{
    let bursts = number_at(file, 2) as usize;
    let from = 6 + number_at(file, 0) as usize + bursts;
    for k in 0..bursts {
        let count = number_at(file, from + k);
        arrivals_refusal(Packets(u64::from(count)))?;
    }
    Ok(())
}

// 2, 3 and 4, for the table's entries.
fn entries_refusal(file: &[u8]) -> Result<(), Refusal>
    requires { last file.now ≤ 64 }
    ensures { number_given result ≡ values_refusal (table_of file.now) }
{
    let mut room = [0; LAST_WINDOW + 1];
    let table = &mut room[..number_at(file, 0) as usize + 1];
    fill(file, 5, table);
    values_refusal(table)
}

// The contents: 2, 3 and 4, then 6, 7, 14, 8.
#[tactic(auto, unfolding(crate::specs::Refusals::contents_refusal), using(orders::proofs::Given::refused_first, orders::proofs::Given::passed_first))]
fn contents_refusal(file: &[u8]) -> Result<(), Refusal>
    requires { last file.now ≤ 64 }
    ensures { number_given result ≡ contents_refusal file.now }
{
    entries_refusal(file)?;
    delay_refusal(Slots(number_at(file, 3)))?;
    buffer_refusal(Packets(u64::from(number_at(file, 4))))?;
    bursts_refusal(file)?;
    burst_counts_refusal(file)
}

// The first refusal that applies to a file.
#[tactic(auto, unfolding(crate::specs::Refusals::file_refusal), using(orders::proofs::Given::refused_first, orders::proofs::Given::passed_first))]
pub fn file_refusal(file: &[u8]) -> Result<(), Refusal>
    ensures { number_given result ≡ file_refusal file.now }
{
    sizes_refusal(file)?;
    contents_refusal(file)
}
