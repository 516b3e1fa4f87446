// An envelope by value, and what of it counts.
ghost use Rattle.std.specs.Prelude.{◌≡◌};
ghost use Rattle.envelope.specs.Envelope.{last_used, capped_table};

use numbers::count::Slots;
use numbers::size::MOST_PACKETS_32;

// The windows 0 to L of the table; the places after window L are 0.
#[derive(Clone, Copy)]
pub struct Envelope {
    pub last: Slots,
    pub table: [u32; 65],
}

// L, or the nearest of 1 to 64 where no table gave it.
pub fn last_used(last: Slots) -> usize
    ensures { result ≡ last_used last.0 }
{
    last.0.clamp(1, 64) as usize
}

// The entries as far as they are at most 1,000,000, which those of a table that was taken are.
pub fn capped(table: [u32; 65]) -> [u32; 65]
    ensures { result ≡ capped_table table }
{
    // In place, several at a time: `map` takes 20 instructions an entry.
    let mut out = table;
    for k in 0..65 {
        out[k] = out[k].min(MOST_PACKETS_32);
    }
    out
}
