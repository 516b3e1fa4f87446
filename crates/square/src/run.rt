// The run with an envelope that varies with time: the square is closed once, and theorem 5.1's totals are worked slot after slot.
ghost use Rattle.std.specs.Prelude.{◌+◌, ◌<◌, length};
ghost use Rattle.calculus.specs.Numbers.Limit.{delay_limit, buffer_limit};
ghost use Rattle.orders.specs.Answered.{verdict_given};
ghost use Rattle.square.specs.SquareRun.{SquareRan};
ghost use Rattle.square.specs.SquareWork.{Running, RowsOf};

use crate::close::{closed, least_sum};
use crate::judge::run_refusal;
use numbers::count::{Packets, Slots};
use orders::refusal::Refusal;
use settings::limits::{looked_ahead, within_limits};

// Works the slots one after another over a closed square, and lists what each admits, drops and lets go.
fn work(
    bounds: &[[u32; 33]; 33],
    delay: u32,
    buffer: u32,
    arrivals: &[u32],
    admitted: &mut [u32],
    dropped: &mut [u32],
    departed: &mut [u32],
)
    requires { Running bounds.now delay buffer arrivals.now (length admitted.old) (length dropped.old) (length departed.old) }
    ensures { RowsOf bounds.now (delay_limit delay) (buffer_limit buffer) arrivals.now admitted.new dropped.new departed.new }
{
    let ahead = looked_ahead(Slots(delay));
    let mut totals = [0; 33];
    let mut x: u32 = 0;
    let mut y: u32 = 0;
    for (t, n) in arrivals.iter().enumerate() {
        let next = t + 1;
        let soon = least_sum(bounds, &totals, 0, t, next);
        let late = least_sum(bounds, &totals, 0, t, next + ahead);
        let total = within_limits(x + *n, late, y, Slots(delay), buffer);
        let gone = total.min(soon);
        let taken = total - x;
        admitted[t] = taken;
        dropped[t] = *n - taken;
        departed[t] = gone - y;
        x = total;
        y = gone;
        totals[next] = x;
    }
}

// Runs a whole trace: the three lists are filled, or it is refused and none of them is written.
pub fn run(
    square: [[u32; 33]; 33],
    delay: Slots,
    buffer: Packets,
    arrivals: &[u32],
    admitted: &mut [u32],
    dropped: &mut [u32],
    departed: &mut [u32],
) -> Result<(), Refusal>
    ensures { SquareRan square delay.0 buffer.0 arrivals.now admitted.old dropped.old departed.old (verdict_given result) admitted.new dropped.new departed.new }
{
    run_refusal(
        square,
        delay,
        buffer,
        arrivals,
        admitted.len(),
        dropped.len(),
        departed.len(),
    )?;
    let bounds = closed(&square);
    work(
        &bounds,
        delay.0,
        buffer.0 as u32,
        arrivals,
        admitted,
        dropped,
        departed,
    );
    Ok(())
}
