// X(t) and Y(t), each worked from the other.
ghost use Rattle.std.specs.Prelude.{◌≡◌, ◌+◌, ◌<◌, length, get_or};
ghost use Rattle.calculus.specs.Numbers.Limit.{delay_limit, buffer_limit};
ghost use Rattle.calculus.specs.Regulators.Rows.{admitted_by, departed_by};
ghost use Rattle.pencil.specs.PencilWork.{Working};

use numbers::count::Slots;
use settings::limits::{looked_ahead, within_limits};

// A total and f at a window: said once, for three sums, under which bound a sum fits in 32 bits.
fn with_window(total: u32, near: &[u32], window: usize) -> u32
    requires { (window < length near.now) × (total + get_or near.now window 0 < 4294967296) }
    ensures { result ≡ total + get_or near.now window 0 }
{
    total + near[window]
}

// An accepted set-up with f at its first windows, and a trace.
#[derive(Clone, Copy)]
pub(crate) struct Work<'a> {
    pub(crate) table: &'a [u32],
    pub(crate) near: &'a [u32],
    pub(crate) delay: u32,
    pub(crate) buffer: u32,
    pub(crate) arrivals: &'a [u32],
}

impl<'a> Work<'a> {
    // X(t): from X(t-1), the slot's arrivals and the departed totals of all slots before.
    #[cycle(admitted_total_departed_total)]
    pub(crate) fn admitted_total(&self, t: usize) -> u32
        requires { Working self.now.table.now self.now.near.now self.now.delay self.now.buffer self.now.arrivals.now t }
        ensures { result ≡ admitted_by self.now.table.now (delay_limit self.now.delay) (buffer_limit self.now.buffer) self.now.arrivals.now t }
    {
        if t == 0 {
            return 0;
        }
        let before = t - 1;
        let x = self.admitted_total(before);
        let gone = self.departed_total(before);
        let ahead = looked_ahead(Slots(self.delay));
        let mut late = with_window(gone, self.near, 1 + ahead);
        // From the slot before, as the laws of `Pencilled` count: over `2..=t` the proof did not close.
        for k in 1..t {
            let window = k + 1;
            let y = self.departed_total(t - window);
            late = late.min(with_window(y, self.near, window + ahead));
        }
        within_limits(
            x + self.arrivals[before],
            late,
            gone,
            Slots(self.delay),
            self.buffer,
        )
    }

    // Y(t): the least of X(s) + f(t-s).
    #[cycle(admitted_total_departed_total)]
    pub(crate) fn departed_total(&self, t: usize) -> u32
        requires { Working self.now.table.now self.now.near.now self.now.delay self.now.buffer self.now.arrivals.now t }
        ensures { result ≡ departed_by self.now.table.now (delay_limit self.now.delay) (buffer_limit self.now.buffer) self.now.arrivals.now t }
    {
        let x = self.admitted_total(0);
        let mut least = with_window(x, self.near, t);
        // From the slot before, as above: over `1..=t` the proof did not close.
        for s in 0..t {
            let slot = s + 1;
            let x = self.admitted_total(slot);
            least = least.min(with_window(x, self.near, t - slot));
        }
        least
    }
}
