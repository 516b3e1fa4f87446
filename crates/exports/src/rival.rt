// Anyone's rows judged, from C or Rust.
ghost use Rattle.std.specs.Prelude.{◌≡◌};
ghost use Rattle.rivals.specs.Judgement.{judgement_of};

use numbers::count::{Packets, Slots};
use rivals::judge::{Judgement, judge};

// A number, and 0 for the rest; or 0, and the rule, slot and window that the rows break first, all 0 where they are permitted.
pub fn bezhantiru_judge(
    table: &[u32],
    delay: u32,
    buffer: u32,
    arrivals: &[u32],
    admitted: &[u32],
    departed: &[u32],
) -> Judgement
    ensures { result ≡ judgement_of table.now delay buffer arrivals.now admitted.now departed.now }
{
    judge(
        table,
        Slots(delay),
        Packets(u64::from(buffer)),
        arrivals,
        admitted,
        departed,
    )
}
