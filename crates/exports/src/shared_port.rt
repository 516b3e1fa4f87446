// The shared port's run, from C or Rust.
ghost use Rattle.c_answers.specs.Numbered.{PortRanByNumber};

use numbers::count::Slots;
use orders::refusal::number_given;
use port::run::port_run;

// Fills both lists, or answers a number and writes to neither of them.
pub fn bezhantiru_port_run(
    deadlines: &[u32],
    slots: u32,
    capacity: u32,
    input: &[u32],
    sent: &mut [u32],
    late: &mut [u32],
) -> u32
    ensures { PortRanByNumber deadlines.now slots capacity input.now sent.old late.old result sent.new late.new }
{
    number_given(port_run(deadlines, Slots(slots), capacity, input, sent, late))
}
