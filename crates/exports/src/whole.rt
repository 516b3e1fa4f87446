// The whole-trace run from C or Rust.
ghost use Rattle.c_answers.specs.Numbered.{RanByNumber};

use numbers::count::{Packets, Slots};
use orders::refusal::number_given;
use trace::run::run;

// Fills the three lists, or answers a number and writes to none of them.
pub fn bezhantiru_run(
    table: &[u32],
    delay: u32,
    buffer: u32,
    arrivals: &[u32],
    admitted: &mut [u32],
    dropped: &mut [u32],
    departed: &mut [u32],
) -> u32
    ensures { RanByNumber table.now delay buffer arrivals.now admitted.old dropped.old departed.old result admitted.new dropped.new departed.new }
{
    number_given(run(
        table,
        Slots(delay),
        Packets(u64::from(buffer)),
        arrivals,
        admitted,
        dropped,
        departed,
    ))
}
