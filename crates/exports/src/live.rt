// The live regulator from C or Rust: made once, then lent for each slot.
ghost use Rattle.std.specs.Prelude.{◌≡◌};
ghost use Rattle.regulator.specs.Regulator.{set_up_of, slot_of, regulator_of};
ghost use Rattle.c_answers.specs.Numbered.{made_of, row_of, RowOn};

use c_answers::answer::{MadeRegulator, SlotRow};
use numbers::count::{Packets, Slots};
use regulator::lent::lent_slot;
use regulator::parts::slot_on;
use regulator::regulator::{Regulator, set_up};

// A fresh regulator for a table and two limits, or 1 to 4, 6, 7 or 23.
pub fn bezhantiru_set_up(table: &[u32], delay: u32, buffer: u32) -> MadeRegulator
    ensures { result ≡ made_of (set_up_of table.now delay buffer) }
{
    set_up(table, Slots(delay), Packets(u64::from(buffer))).into()
}

// Takes one slot on a lent regulator: the record and the regulator advanced, or 8 or 9 and the regulator as it was.
pub fn bezhantiru_slot(r: &mut Regulator, arrivals: u64) -> SlotRow
    ensures { (result ≡ row_of (slot_of r.old arrivals).answer) × (r.new ≡ (slot_of r.old arrivals).regulator) }
{
    lent_slot(r, Packets(arrivals)).into()
}

// The same on a regulator that is lent part by part: those parts that a slot may change, and copies of the others.
// Nothing but the parts lent is written, so that a slot costs what its sums cost.
pub fn bezhantiru_slot_on(
    row: &mut [u64; 192],
    near: &[u32; 129],
    last: u32,
    delay: u32,
    buffer: u64,
    slots: &mut u32,
    admitted: &mut u64,
    form_peak: &mut u64,
    bench_peak: &mut u64,
    arrivals: u64,
) -> SlotRow
    ensures { RowOn (regulator_of last delay buffer near.now slots.old admitted.old form_peak.old bench_peak.old row.old) arrivals result slots.new admitted.new form_peak.new bench_peak.new row.new }
{
    slot_on(
        row, near, last, delay, buffer, slots, admitted, form_peak, bench_peak, arrivals,
    )
    .into()
}
