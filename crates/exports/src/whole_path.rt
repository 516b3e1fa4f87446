// The whole-trace run of regulators in a row, from C or Rust.
ghost use Rattle.path.specs.Refusals.{tables_of};
ghost use Rattle.c_answers.specs.Numbered.{PathRanByNumber};

use numbers::count::{Packets, Slots};
use orders::refusal::number_given;
use path::run::path_run;

// Fills the three lists, or answers a number and writes to none of them. Tables beyond the number of stages are not looked at.
pub fn bezhantiru_path_run(
    stages: u32,
    first: &[u32],
    second: &[u32],
    third: &[u32],
    fourth: &[u32],
    delay: u32,
    buffer: u32,
    arrivals: &[u32],
    admitted: &mut [u32],
    dropped: &mut [u32],
    departed: &mut [u32],
) -> u32
    ensures { PathRanByNumber stages (tables_of stages first.now second.now third.now fourth.now) delay buffer arrivals.now admitted.old dropped.old departed.old result admitted.new dropped.new departed.new }
{
    number_given(path_run(
        stages,
        first,
        second,
        third,
        fourth,
        Slots(delay),
        Packets(u64::from(buffer)),
        arrivals,
        admitted,
        dropped,
        departed,
    ))
}
