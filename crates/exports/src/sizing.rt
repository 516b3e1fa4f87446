// The smallest buffer limit and the smallest delay limit, from C or Rust.
ghost use Rattle.std.specs.Prelude.{◌≡◌};
ghost use Rattle.size.specs.Size.{size_given};
ghost use Rattle.exports.specs.NumberedSizes.{size_of, buffer_size_of, delay_size_of};

use numbers::count::{Packets, Slots};
use orders::refusal::Refusal;
use size::{smallest_buffer, smallest_delay};

// 0, 1, the smallest limit and what it loses; or 0, 0, the greatest and what it loses; or a number and 0s.
#[repr(C)]
#[derive(Clone, Copy)]
pub struct Size {
    pub number: u32,
    pub found: u32,
    pub limit: u32,
    pub lost: u32,
}

impl From<Result<size::Size, Refusal>> for Size {
    ghost from_gives = { λ answer given. given ≡ size_of (size_given answer) };

    fn from(answer: Result<size::Size, Refusal>) -> Size {
        match answer {
            Ok(size::Size::Found(at)) => Size {
                number: 0,
                found: 1,
                limit: at.limit,
                lost: at.lost,
            },
            Ok(size::Size::NotFound(at)) => Size {
                number: 0,
                found: 0,
                limit: at.limit,
                lost: at.lost,
            },
            Err(refusal) => Size {
                number: refusal.number(),
                found: 0,
                limit: 0,
                lost: 0,
            },
        }
    }
}

// The smallest buffer limit at which at most so many packets of the trace are lost by its last slot.
pub fn bezhantiru_smallest_buffer(table: &[u32], delay: u32, arrivals: &[u32], most: u32) -> Size
    ensures { result ≡ buffer_size_of table.now delay arrivals.now most }
{
    smallest_buffer(table, Slots(delay), arrivals, most).into()
}

// The smallest delay limit at which at most so many packets of the trace are lost by its last slot.
pub fn bezhantiru_smallest_delay(table: &[u32], buffer: u32, arrivals: &[u32], most: u32) -> Size
    ensures { result ≡ delay_size_of table.now buffer arrivals.now most }
{
    smallest_delay(table, Packets(u64::from(buffer)), arrivals, most).into()
}
