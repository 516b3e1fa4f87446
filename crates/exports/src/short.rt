// All short traces and the pencil version, from C or Rust.
ghost use Rattle.exports.specs.NumberedRuns.{ListedByNumber, PencilRanByNumber};

use numbers::count::{Packets, Slots};
use orders::refusal::number_given;
use pencil::listing::list_traces;
use pencil::run::pencil_run;

// Lists every trace of so many slots, or answers a number and writes nothing.
pub fn bezhantiru_short_traces(slots: u32, counts: &mut [u32]) -> u32
    ensures { ListedByNumber slots counts.old result counts.new }
{
    number_given(list_traces(slots as usize, counts))
}

// Fills the three lists by the pencil version, or answers a number and writes to none of them.
pub fn bezhantiru_pencil_run(
    table: &[u32],
    delay: u32,
    buffer: u32,
    arrivals: &[u32],
    admitted: &mut [u32],
    dropped: &mut [u32],
    departed: &mut [u32],
) -> u32
    ensures { PencilRanByNumber table.now delay buffer arrivals.now admitted.old dropped.old departed.old result admitted.new dropped.new departed.new }
{
    number_given(pencil_run(
        table,
        Slots(delay),
        Packets(u64::from(buffer)),
        arrivals,
        admitted,
        dropped,
        departed,
    ))
}
