// What the two limits leave of an admitted total of 32 bits (document 01, "One slot"), for every work that goes slot by slot.
ghost use Rattle.std.specs.Prelude.{◌≡◌};
ghost use Rattle.calculus.specs.Numbers.Limit.{map_limit, cut, delay_limit, buffer_limit};
ghost use Rattle.calculus.specs.Regulators.Ahead.{within_buffer};
ghost use Rattle.settings.specs.LookedAhead.{looked_ahead};

use numbers::count::Slots;
use numbers::size::LONGEST_DELAY;
use refusals::limits::NO_DELAY;

// The admitted total cut down to what the delay limit lets depart in time.
#[tactic(auto, unfolding(calculus::specs::Numbers::Limit::cut, calculus::specs::Numbers::Limit::map_limit, calculus::specs::Numbers::Limit::delay_limit, calculus::specs::Numbers::Limit::limit_unless))]
fn in_time(total: u32, late: u32, delay: Slots) -> u32
    ensures { result ≡ cut total (map_limit (λ _. late) (delay_limit delay.0)) }
{
    if delay.0 == NO_DELAY {
        return total;
    }
    total.min(late)
}

// The admitted total cut down to what the buffer holds besides the total that departed before the slot, as far as 32 bits reach: no
// total lies above them, and a buffer limit that is none is as much as they reach by itself.
pub fn within_buffer(total: u32, before: u32, buffer: u32) -> u32
    ensures { result ≡ within_buffer before (buffer_limit buffer) total }
{
    total.min(before.saturating_add(buffer))
}

// The admitted total cut down by both limits.
#[tactic(auto, using(crate::proofs::Cuts::cut_swaps))]
pub fn within_limits(total: u32, late: u32, before: u32, delay: Slots, buffer: u32) -> u32
    ensures { result ≡ within_buffer before (buffer_limit buffer) (cut total (map_limit (λ _. late) (delay_limit delay.0))) }
{
    in_time(within_buffer(total, before, buffer), late, delay)
}

// The slots that the delay limit looks ahead, 0 where it is none.
#[tactic(auto, unfolding(crate::specs::LookedAhead::looked_ahead, orders::specs::Refusal::pick))]
pub fn looked_ahead(delay: Slots) -> usize
    ensures { result ≡ looked_ahead delay.0 }
{
    if delay.0 <= LONGEST_DELAY {
        delay.0 as usize
    } else {
        0
    }
}
