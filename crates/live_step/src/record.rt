// A slot's record, made from running totals.
ghost use Rattle.std.specs.Prelude.{◌≡◌};
ghost use Rattle.live_step.specs.Record.{record_by};

use crate::step::Totals;

// A slot's record: what was held before it, and the packets admitted, dropped and departed in it.
#[derive(Clone, Copy)]
pub struct SlotRecord {
    pub held_before: u64,
    pub admitted: u64,
    pub dropped: u64,
    pub departed: u64,
}

// A slot's record, from the totals after it and those before it.
pub fn record_of(totals: Totals, admitted: u64, before: u64, arrivals: u64) -> SlotRecord
    ensures { result ≡ record_by totals.admitted totals.departed admitted before arrivals }
{
    let taken = totals.admitted.saturating_sub(admitted);
    SlotRecord {
        held_before: admitted.saturating_sub(before),
        admitted: taken,
        dropped: arrivals.saturating_sub(taken),
        departed: totals.departed.saturating_sub(before),
    }
}
