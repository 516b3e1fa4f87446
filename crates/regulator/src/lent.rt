// One slot on a regulator that is lent.
ghost use Rattle.std.specs.Prelude.{◌≡◌};
ghost use Rattle.live_step.specs.Answer.{answer_given};
ghost use Rattle.regulator.specs.Regulator.{slot_of};

use crate::regulator::Regulator;
use crate::slot::slot;
use live_step::record::SlotRecord;
use numbers::count::Packets;
use orders::refusal::Refusal;

// Takes one slot: the counts are answered and the lent regulator is advanced, or the refusal and it is left as it was.
pub fn lent_slot(r: &mut Regulator, arrivals: Packets) -> Result<SlotRecord, Refusal>
    ensures { (answer_given result ≡ (slot_of r.old arrivals.0).answer) × (r.new ≡ (slot_of r.old arrivals.0).regulator) }
{
    let (answer, advanced) = slot(*r, arrivals);
    *r = advanced;
    answer
}
