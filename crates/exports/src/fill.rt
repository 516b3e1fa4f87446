// The two readers of a slot's record, for C or Rust: any numbers are answered.
ghost use Rattle.std.specs.Prelude.{◌≡◌};
ghost use Rattle.live_step.specs.Fill.{form_fill_of, bench_fill_of};

use live_step::fill::{bench_fill, form_fill};
use live_step::record::SlotRecord;

// The order form's fill, at the slot's end.
pub fn bezhantiru_form_fill(held_before: u64, admitted: u64, departed: u64) -> u64
    ensures { result ≡ form_fill_of held_before admitted departed }
{
    form_fill(SlotRecord {
        held_before,
        admitted,
        dropped: 0,
        departed,
    })
}

// The bench's fill, before the slot's departures.
pub fn bezhantiru_bench_fill(held_before: u64, admitted: u64) -> u64
    ensures { result ≡ bench_fill_of held_before admitted }
{
    bench_fill(SlotRecord {
        held_before,
        admitted,
        dropped: 0,
        departed: 0,
    })
}
