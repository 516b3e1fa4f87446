// The smallest buffer limit and the smallest delay limit, from C or Rust.
ghost use Rattle.std.specs.Prelude.{◌≡◌};
ghost use Rattle.exports.specs.NumberedSizes.{buffer_size_of, delay_size_of};

use exports::sizing::Size;

// The smallest buffer limit at which at most so many packets of the trace are lost by its last slot.
#[unsafe(no_mangle)]
pub extern "C" fn bezhantiru_smallest_buffer(
    table: &[u32],
    delay: u32,
    arrivals: &[u32],
    most: u32,
) -> Size
    ensures { result ≡ buffer_size_of table.now delay arrivals.now most }
{
    exports::sizing::bezhantiru_smallest_buffer(table, delay, arrivals, most)
}

// The smallest delay limit at which at most so many packets of the trace are lost by its last slot.
#[unsafe(no_mangle)]
pub extern "C" fn bezhantiru_smallest_delay(
    table: &[u32],
    buffer: u32,
    arrivals: &[u32],
    most: u32,
) -> Size
    ensures { result ≡ delay_size_of table.now buffer arrivals.now most }
{
    exports::sizing::bezhantiru_smallest_delay(table, buffer, arrivals, most)
}
