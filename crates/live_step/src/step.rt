// One slot's totals from a row of past departed totals: the forecasts, and what they admit.
ghost use Rattle.std.specs.Prelude.{◌≡◌, ◌+◌, min};
ghost use Rattle.calculus.specs.Numbers.Limit.{map_limit, cut};
ghost use Rattle.numbers.specs.LeastSum.{top};
ghost use Rattle.refusals.specs.Limits.{delay_limit, buffer_limit};
ghost use Rattle.live_step.specs.Step.{forecast_at, forecast_late, totals_with};

use least_sum::least::least_sum_from;
use numbers::number::TOP;
use refusals::limits::{NO_BUFFER, NO_DELAY};

// The most that may have departed by the next slot, and by the slot that the delay limit asks for. Infinity has no place in 32 bits.
#[derive(Clone, Copy)]
pub struct Forecasts {
    pub soon: u64,
    pub late: u64,
}

// Admitted and departed by a slot. `totals_with` names this record, and `run_totals` that of a run, which has 32 bits.
#[derive(Clone, Copy)]
pub struct Totals {
    pub admitted: u64,
    pub departed: u64,
}

// The forecast for the next slot.
#[tactic(auto, unfolding(crate::specs::Step::forecast_at))]
pub fn forecast(row: &[u64], near: &[u32], last: usize) -> u64
    ensures { result ≡ forecast_at last near.now row.now 0 }
{
    least_sum_from(row, 0, near, 1, last)
}

// The forecast for `delay` slots after the next one, infinity where the delay limit is none.
#[tactic(auto, unfolding(crate::specs::Step::forecast_late, crate::specs::Step::forecast_at, refusals::specs::Limits::delay_limit, calculus::specs::Numbers::Limit::limit_unless))]
pub fn forecast_late(row: &[u64], near: &[u32], last: usize, delay: u32) -> u64
    ensures { result ≡ forecast_late last (delay_limit delay) near.now row.now }
{
    if delay == NO_DELAY {
        return TOP;
    }
    let from = delay as usize + 1;
    least_sum_from(row, 0, near, from, last)
}

// The admitted total cut down to what the buffer holds besides the total that departed before the slot.
#[tactic(auto, unfolding(calculus::specs::Numbers::Limit::cut, calculus::specs::Numbers::Limit::map_limit, refusals::specs::Limits::buffer_limit, calculus::specs::Numbers::Limit::limit_unless))]
pub fn within_buffer(admitted: u64, before: u64, buffer: u64) -> u64
    ensures { result ≡ cut admitted (map_limit (λ b. min (before + b) top) (buffer_limit buffer)) }
{
    if buffer == NO_BUFFER {
        return admitted;
    }
    admitted.min(before.saturating_add(buffer))
}

// The totals after a slot, from its two forecasts and the total that departed before it.
pub fn admit(soon: u64, late: u64, before: u64, buffer: u64, admitted: u64, arrivals: u64) -> Totals
    ensures { result ≡ totals_with soon late before (buffer_limit buffer) admitted arrivals }
{
    let arrived = admitted.saturating_add(arrivals).min(late);
    let total = within_buffer(arrived, before, buffer);
    Totals {
        admitted: total,
        departed: total.min(soon),
    }
}
