// f and its first pieces at many windows at once, worked in one pass.
ghost use Rattle.envelope.specs.Envelope.{RowAnswered};
ghost use Rattle.orders.specs.Answered.{verdict_given};

use crate::entries::Entries;
use crate::table::{Envelope, capped, last_used};
use numbers::size::LAST_ASKED;
use orders::refusal::Refusal;

// A row with a place for each window that is answered.
pub const ALL_WINDOWS: usize = LAST_ASKED + 1;

// Fills the row with f at as many windows as it has places, window 0 last, and puts their first pieces at the same places of the other
// list, where it has them. A row with a place for a window above 4,160 is refused.
pub fn fill(e: Envelope, row: &mut [u32], pieces: &mut [u32]) -> Result<(), Refusal>
    ensures { RowAnswered e row.old pieces.old (verdict_given result) row.new pieces.new }
{
    if row.len() > ALL_WINDOWS {
        return Err(Refusal::WindowTooFar);
    }
    let table = capped(e.table);
    let entries = Entries {
        table: &table,
        last: last_used(e.last),
    };
    entries.close(row, pieces);
    Ok(())
}
