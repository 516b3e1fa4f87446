// A link of a chain: whether it is sound.
ghost use Rattle.std.specs.Prelude.{◌≡◌, ◌≢◌, ◌+◌, ◌-◌, ◌<◌, ◌≤◌, ◌==◌, MatchOption};
ghost use Rattle.chain.specs.Links.{at_window, delay_makes, buffer_makes, row_sound};
ghost use Rattle.chain.specs.Marks.{mark_number};

use numbers::size::{LAST_ASKED, LONGEST_DELAY, LONGEST_TRACE};
use refusals::limits::NO_BUFFER_32;

// What bounds a link.
#[derive(Clone, Copy, PartialEq, Eq)]
pub enum Mark {
    Arrivals,
    Delay,
    Buffer,
}

impl Mark {
    // The mark of a list's number; any number but 1, 2 and 3 is none.
    pub fn of(number: u32) -> Option<Mark>
        ensures { MatchOption result ((number ≢ 1) × (number ≢ 2) × (number ≢ 3)) (λ m. number ≡ mark_number m) }
    {
        match number {
            1 => Some(Mark::Arrivals),
            2 => Some(Mark::Delay),
            3 => Some(Mark::Buffer),
            _ => None,
        }
    }

    // Its number in a list.
    pub fn number(self) -> u32
        ensures { result ≡ mark_number self }
    {
        match self {
            Mark::Arrivals => 1,
            Mark::Delay => 2,
            Mark::Buffer => 3,
        }
    }
}

#[tactic(auto, unfolding(crate::specs::Links::at_window))]
fn at_window(windows: &[u32; 4161], window: usize) -> u32
    requires { window ≤ 4160 }
    ensures { result ≡ at_window windows.now window }
{
    windows[LAST_ASKED - window]
}

// Whether packets and the total before make the total after.
pub fn makes(packets: u32, before: u32, after: u32) -> bool
    ensures { result ≡ (packets + before == after) }
{
    u64::from(packets) + u64::from(before) == u64::from(after)
}

// What a total grows by, 0 where it falls.
pub fn grown(before: u32, after: u32) -> u32
    ensures { result ≡ after - before }
{
    after.saturating_sub(before)
}

// Whether the amount is f(w+d).
fn delay_makes(windows: &[u32; 4161], delay: u32, window: usize, amount: u32) -> bool
    requires { window ≤ 4096 }
    ensures { result ≡ delay_makes windows.now delay window amount }
{
    delay <= LONGEST_DELAY && at_window(windows, window + delay as usize) == amount
}

// Whether the amount is f(w-1) + q.
fn buffer_makes(windows: &[u32; 4161], buffer: u32, window: usize, amount: u32) -> bool
    requires { (1 ≤ window) × (window ≤ 4096) }
    ensures { result ≡ buffer_makes windows.now buffer window amount }
{
    buffer != NO_BUFFER_32 && makes(at_window(windows, window - 1), buffer, amount)
}

// Whether slots rise over a link, none is above 4,096, and its amount is that of its mark. A limit that is none marks no link.
pub fn link_sound(
    windows: &[u32; 4161],
    arrived: &[u32; 4161],
    delay: u32,
    buffer: u32,
    s: usize,
    t: usize,
    mark: u32,
    amount: u32,
) -> bool
    ensures { result ≡ row_sound windows.now arrived.now delay buffer s t mark amount }
{
    if s >= t || t > LONGEST_TRACE {
        return false;
    }
    let window = t - s;
    match Mark::of(mark) {
        Some(Mark::Arrivals) => makes(amount, arrived[s], arrived[t]),
        Some(Mark::Delay) => delay_makes(windows, delay, window, amount),
        Some(Mark::Buffer) => buffer_makes(windows, buffer, window, amount),
        None => false,
    }
}
