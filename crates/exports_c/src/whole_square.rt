// The whole-trace run with an envelope that varies with time, from C or Rust.
ghost use Rattle.exports.specs.NumberedRuns.{SquareRanByNumber};

// Fills the three lists, or answers a number and writes to none of them.
#[unsafe(no_mangle)]
pub extern "C" fn bezhantiru_square_run(
    square: &[[u32; 33]; 33],
    delay: u32,
    buffer: u32,
    arrivals: &[u32],
    admitted: &mut [u32],
    dropped: &mut [u32],
    departed: &mut [u32],
) -> u32
    ensures { SquareRanByNumber square.now delay buffer arrivals.now admitted.old dropped.old departed.old result admitted.new dropped.new departed.new }
{
    exports::whole_square::bezhantiru_square_run(
        square, delay, buffer, arrivals, admitted, dropped, departed,
    )
}
