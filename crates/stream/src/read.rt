// What an accepted file holds. A lent list is as it was where the file is refused or the list has another length.
ghost use Rattle.std.specs.Prelude.{◌≡◌, ◌+◌};
ghost use Rattle.stream.specs.Format.{last, slots, delay, buffer, table_of, file_trace};
ghost use Rattle.stream.specs.Refusals.{file_refusal};
ghost use Rattle.stream.specs.Handed.{handed, counts_part, counts_place};

use crate::judge::file_refusal;
use crate::number::{fill, number_at};
use crate::place::place;
use numbers::count::{Packets, Slots};

// The header's numbers as they stand, whatever the file: L as the entries that the table has, T, d and q.
pub fn entries_of(file: &[u8]) -> usize
    ensures { result ≡ last file.now + 1 }
{
    number_at(file, 0) as usize + 1
}

pub fn slots_of(file: &[u8]) -> Slots
    ensures { result.0 ≡ slots file.now }
{
    Slots(number_at(file, 1))
}

pub fn delay_of(file: &[u8]) -> Slots
    ensures { result.0 ≡ delay file.now }
{
    Slots(number_at(file, 3))
}

pub fn buffer_of(file: &[u8]) -> Packets
    ensures { result.0 ≡ buffer file.now }
{
    Packets(u64::from(number_at(file, 4)))
}

// The L+1 entries of the table.
pub fn table_of(file: &[u8], table: &mut [u32])
    ensures { table.new ≡ handed (file_refusal file.now) (table_of file.now) table.old }
{
    if file_refusal(file).is_ok() && table.len() == entries_of(file) {
        fill(file, 5, table);
    }
}

// The arrivals of slots 1 to T.
pub fn arrivals_of(file: &[u8], arrivals: &mut [u32])
    ensures { arrivals.new ≡ handed (file_refusal file.now) (file_trace file.now) arrivals.old }
{
    if file_refusal(file).is_ok() && arrivals.len() == slots_of(file).0 as usize {
        place(file, arrivals);
    }
}

// The part of the file that holds the counts, or the empty part at the start of a refused file.
pub fn counts_of(file: &[u8]) -> &[u8]
    ensures { (result.now ≡ counts_part file.now) × (result.ref_ptr ≡ counts_place file.now file.entry.ref_ptr) }
{
    if file_refusal(file).is_err() {
        return &file[0..0];
    }
    let last = number_at(file, 0) as usize;
    let bursts = number_at(file, 2) as usize;
    let from = 4 * (6 + last + bursts);
    let to = from + 4 * bursts;
    &file[from..to]
}
