// The shared port's run, from C or Rust.
ghost use Rattle.c_answers.specs.Numbered.{PortRanByNumber};

// Fills both lists, or answers a number and writes to neither of them.
#[unsafe(no_mangle)]
pub extern "C" fn bezhantiru_port_run(
    deadlines: &[u32],
    slots: u32,
    capacity: u32,
    input: &[u32],
    sent: &mut [u32],
    late: &mut [u32],
) -> u32
    ensures { PortRanByNumber deadlines.now slots capacity input.now sent.old late.old result sent.new late.new }
{
    exports::shared_port::bezhantiru_port_run(deadlines, slots, capacity, input, sent, late)
}
