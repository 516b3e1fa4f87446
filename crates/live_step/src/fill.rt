// The two readers of a slot's record: the order form's fill at the slot's end, and the bench's before the departures.
// Both answer any record, also one that no slot gave; a fill that 64 bits do not hold counts as the largest number.
ghost use Rattle.std.specs.Prelude.{◌≡◌};
ghost use Rattle.live_step.specs.Fill.{form_fill, bench_fill};

use crate::record::SlotRecord;

// Held before, plus admitted, less departed.
#[tactic(auto, unfolding(crate::specs::Fill::form_fill))]
pub fn form_fill(counted: SlotRecord) -> u64
    ensures { result ≡ form_fill counted }
{
    if counted.departed <= counted.held_before {
        return (counted.held_before - counted.departed).saturating_add(counted.admitted);
    }
    counted
        .admitted
        .saturating_sub(counted.departed - counted.held_before)
}

// Held before, plus admitted.
#[tactic(auto, unfolding(crate::specs::Fill::bench_fill))]
pub fn bench_fill(counted: SlotRecord) -> u64
    ensures { result ≡ bench_fill counted }
{
    counted.held_before.saturating_add(counted.admitted)
}
