// The trace that loses most, from C or Rust.
ghost use Rattle.exports.specs.NumberedRuns.{WorstByNumber};

use exports::worst_case::Worst;

// Writes the trace and tells its loss, or answers a number and writes nothing.
#[unsafe(no_mangle)]
pub extern "C" fn bezhantiru_worst_trace(
    table: &[u32],
    delay: u32,
    buffer: u32,
    slots: u32,
    most_in_slot: u32,
    most_in_all: u32,
    trace: &mut [u32],
) -> Worst
    ensures { WorstByNumber table.now delay buffer slots most_in_slot most_in_all trace.old result trace.new }
{
    exports::worst_case::bezhantiru_worst_trace(
        table,
        delay,
        buffer,
        slots,
        most_in_slot,
        most_in_all,
        trace,
    )
}
