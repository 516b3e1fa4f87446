// A table taken: judged, and copied into an envelope where it is accepted.
ghost use Rattle.std.specs.Prelude.{◌≡◌};
ghost use Rattle.settings.specs.Taken.{padded_table, taken, taken_given};

use envelope::table::Envelope;
use numbers::count::Slots;
use orders::refusal::Refusal;
use refusals::table::{last_window, table_refusal};

// The entries at the windows 0 to 64, and 0 after them.
fn padded(table: &[u32]) -> [u32; 65]
    ensures { result ≡ padded_table table.now }
{
    let mut row = [0; 65];
    let entries = table.len().min(65);
    row[..entries].copy_from_slice(&table[..entries]);
    row
}

// Judges a table; an accepted one becomes an envelope.
pub fn take(table: &[u32]) -> Result<Envelope, Refusal>
    ensures { taken_given result ≡ taken table.now }
{
    table_refusal(table)?;
    Ok(Envelope {
        last: Slots(last_window(table) as u32),
        table: padded(table),
    })
}
