// All short traces and the pencil version, from C or Rust.
ghost use Rattle.exports.specs.NumberedRuns.{ListedByNumber, PencilRanByNumber};

// Lists every trace of so many slots, or answers a number and writes nothing.
#[unsafe(no_mangle)]
pub extern "C" fn bezhantiru_short_traces(slots: u32, counts: &mut [u32]) -> u32
    ensures { ListedByNumber slots counts.old result counts.new }
{
    exports::short::bezhantiru_short_traces(slots, counts)
}

// Fills the three lists by the pencil version, or answers a number and writes to none of them.
#[unsafe(no_mangle)]
pub extern "C" fn bezhantiru_pencil_run(
    table: &[u32],
    delay: u32,
    buffer: u32,
    arrivals: &[u32],
    admitted: &mut [u32],
    dropped: &mut [u32],
    departed: &mut [u32],
) -> u32
    ensures { PencilRanByNumber table.now delay buffer arrivals.now admitted.old dropped.old departed.old result admitted.new dropped.new departed.new }
{
    exports::short::bezhantiru_pencil_run(
        table, delay, buffer, arrivals, admitted, dropped, departed,
    )
}
