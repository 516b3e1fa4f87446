// Whether a certificate's links hold, read off rows.
ghost use Rattle.std.specs.Prelude.{List, ◌≡◌, ℕ, ◌≤◌};
ghost use Rattle.calculus.specs.Numbers.Limit.{delay_limit, buffer_limit};
ghost use Rattle.calculus.specs.Regulators.Trace.{arrivals};
ghost use Rattle.calculus.specs.Regulators.Rows.{envelope_of};
ghost use Rattle.certificate_calculus.specs.LinkTests.{admitted_holds, departed_holds};
ghost use Rattle.certificate.specs.Read.{RowsRead};

use chain::link::{Mark, grown, link_sound, makes};
use numbers::size::LAST_ASKED;

// f at the windows, window 0 last, and totals arrived, admitted and departed by the slots; and the two limits.
// Lent, so that a call needs no more stack than the header says.
#[derive(Clone, Copy)]
pub(crate) struct Rows<'a> {
    pub(crate) delay: u32,
    pub(crate) buffer: u32,
    pub(crate) windows: &'a [u32; 4161],
    pub(crate) arrived: &'a [u32; 4161],
    pub(crate) admitted: &'a [u32; 4161],
    pub(crate) departed: &'a [u32; 4161],
}

impl<'a> Rows<'a> {
    // Whether the admitted link of this mark from a slot to slot t holds. A link of mark 2 holds only where its deadline lies in the
    // trace.
    pub(crate) fn admitted_holds(&self, slots: usize, t: usize, from: u32, mark: u32) -> bool
        requires { (t ≤ slots) × (slots ≤ 4096) }
        ensures { (table trace : List ℕ) (u v : ℕ → ℕ) → RowsRead self.now table trace slots u v → result ≡ admitted_holds (envelope_of table) (delay_limit self.now.delay) (buffer_limit self.now.buffer) (arrivals trace) slots u t from mark }
    {
        let s = from as usize;
        if s >= t {
            return false;
        }
        if mark == Mark::Delay.number() && t + self.delay as usize > slots {
            return false;
        }
        let packets = grown(self.admitted[s], self.admitted[t]);
        link_sound(
            self.windows,
            self.arrived,
            self.delay,
            self.buffer,
            s,
            t,
            mark,
            packets,
        )
    }

    // Whether the departed link from a slot to slot t holds.
    pub(crate) fn departed_holds(&self, slots: usize, t: usize, from: u32) -> bool
        requires { (t ≤ slots) × (slots ≤ 4096) }
        ensures { (table trace : List ℕ) (u v : ℕ → ℕ) → RowsRead self.now table trace slots u v → result ≡ departed_holds (envelope_of table) u v t from }
    {
        let r = from as usize;
        if r > t {
            return false;
        }
        makes(
            self.admitted[r],
            self.windows[LAST_ASKED - (t - r)],
            self.departed[t],
        )
    }
}
