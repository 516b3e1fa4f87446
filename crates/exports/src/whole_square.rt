// The whole-trace run with an envelope that varies with time, from C or Rust.
ghost use Rattle.exports.specs.NumberedRuns.{SquareRanByNumber};

use numbers::count::{Packets, Slots};
use orders::refusal::number_given;
use square::run::run;

// Fills the three lists, or answers a number and writes to none of them.
pub fn bezhantiru_square_run(
    square: &[[u32; 33]; 33],
    delay: u32,
    buffer: u32,
    arrivals: &[u32],
    admitted: &mut [u32],
    dropped: &mut [u32],
    departed: &mut [u32],
) -> u32
    ensures { SquareRanByNumber square.now delay buffer arrivals.now admitted.old dropped.old departed.old result admitted.new dropped.new departed.new }
{
    number_given(run(
        *square,
        Slots(delay),
        Packets(u64::from(buffer)),
        arrivals,
        admitted,
        dropped,
        departed,
    ))
}
