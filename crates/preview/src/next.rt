// The preview: what the next slot would give for some packets, read off a regulator that is not advanced. The headroom and
// the record share the slot's forecasts.
ghost use Rattle.std.specs.Prelude.{◌≡◌, ℕ};
ghost use Rattle.regulator.specs.Regulator.{regulator_of};
ghost use Rattle.preview.specs.Preview.{preview_given, preview_of};

use live_step::record::{SlotRecord, record_of};
use live_step::step::admit;
use numbers::count::{Packets, Slots};
use numbers::size::{MOST_PACKETS, ROW_PLACES};
use orders::refusal::Refusal;
use refusals::limits::{arrivals_refusal, slots_refusal};
use regulator::parts::forecasts_on;
use regulator::regulator::Regulator;

// The next slot's record, and the packets that it would admit out of 1,000,000.
#[derive(Clone, Copy)]
pub struct Foreseen {
    pub slot: SlotRecord,
    pub headroom: u64,
}

// The preview over the parts of a regulator, lent to be read. The peaks have no part in it.
pub fn preview_on(
    row: &[u64; ROW_PLACES],
    near: &[u32; 129],
    last: u32,
    delay: u32,
    buffer: u64,
    slots: u32,
    admitted: u64,
    arrivals: u64,
) -> Result<Foreseen, Refusal>
    ensures { (form bench : ℕ) → preview_given result ≡ preview_of (regulator_of last delay buffer near.now slots admitted form bench row.now) arrivals }
{
    // One after the other, as in `slot_on`, so that each is one comparison.
    arrivals_refusal(Packets(arrivals))?;
    slots_refusal(Slots(slots))?;
    let before = row[0];
    let both = forecasts_on(row, near, last, delay);
    let totals = admit(both.soon, both.late, before, buffer, admitted, arrivals);
    let most = admit(both.soon, both.late, before, buffer, admitted, MOST_PACKETS);
    Ok(Foreseen {
        slot: record_of(totals, admitted, before, arrivals),
        headroom: most.admitted.saturating_sub(admitted),
    })
}

// The preview of a regulator by value.
pub fn preview(r: Regulator, arrivals: Packets) -> Result<Foreseen, Refusal>
    ensures { preview_given result ≡ preview_of r arrivals.0 }
{
    preview_on(
        &r.row,
        &r.settings.near,
        r.settings.last.0,
        r.settings.delay.0,
        r.settings.buffer.0,
        r.slots.0,
        r.admitted.0,
        arrivals.0,
    )
}
