// The live regulator: what it is made of, and set-up from a table and two limits.
ghost use Rattle.std.specs.Prelude.{◌≡◌};
ghost use Rattle.regulator.specs.Regulator.{no_regulator, set_up_given, set_up_of};

use envelope::envelope::{LAST_NEAR, near};
use numbers::count::{Packets, Slots};
use numbers::size::{MOST_SLOTS, ROW_PLACES};
use orders::refusal::Refusal;
use refusals::limits::set_up_refusal;
use settings::table::take;

// L, the two limits as document 01 numbers them, and f at the windows 0 to 128.
#[repr(C)]
#[derive(Clone, Copy)]
pub struct Settings {
    pub last: Slots,
    pub delay: Slots,
    pub buffer: Packets,
    pub near: [u32; 129],
}

// Slots taken, packets admitted so far, the peaks of the order form's fill and of the bench's since it was fresh, and the
// row: the last L departed totals first, newest first, then forecasts.
#[repr(C)]
#[derive(Clone, Copy)]
pub struct Regulator {
    pub settings: Settings,
    pub slots: Slots,
    pub admitted: Packets,
    pub form_peak: Packets,
    pub bench_peak: Packets,
    pub row: [u64; ROW_PLACES],
}

// What stands for no regulator: 1,000,000 slots are already taken, so it takes none.
#[tactic(auto, unfolding(crate::specs::Regulator::no_regulator))]
pub fn no_regulator() -> Regulator
    ensures { result ≡ no_regulator }
{
    let blank = [0; ROW_PLACES];
    Regulator {
        settings: Settings {
            last: Slots(0),
            delay: Slots(0),
            buffer: Packets(0),
            near: [0; LAST_NEAR + 1],
        },
        slots: Slots(MOST_SLOTS),
        admitted: Packets(0),
        form_peak: Packets(0),
        bench_peak: Packets(0),
        row: blank,
    }
}

// A fresh regulator for a table and limits that are accepted.
pub fn set_up(table: &[u32], delay: Slots, buffer: Packets) -> Result<Regulator, Refusal>
    ensures { set_up_given result ≡ set_up_of table.now delay.0 buffer.0 }
{
    set_up_refusal(table, delay, buffer)?;
    let envelope = take(table).unwrap();
    let near = near(envelope, LAST_NEAR).packets;
    let row = [0; ROW_PLACES];
    Ok(Regulator {
        settings: Settings {
            last: envelope.last,
            delay,
            buffer,
            near,
        },
        slots: Slots(0),
        admitted: Packets(0),
        form_peak: Packets(0),
        bench_peak: Packets(0),
        row,
    })
}
