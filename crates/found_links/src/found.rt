// The first admitted link to a slot: for each mark the earliest first slot, read off the losses and the first slots of departed links; of
// these the earliest, then the lowest mark.
ghost use Rattle.std.specs.Prelude.{ℕ, ◌≤◌, ◌<◌, MatchOption};
ghost use Rattle.calculus.specs.Numbers.Limit.{Limit, delay_limit, buffer_limit};
ghost use Rattle.certificate_calculus.specs.FoundLinks.{AdmittedFound};
ghost use Rattle.found_links.specs.FoundRows.{Earliest};
ghost use Rattle.found_links.specs.Links.{Read, EarliestOf, FoundOf, from_of, by_of};

use crate::rows::Rows;
use chain::link::{Mark, makes};
use refusals::limits::{NO_BUFFER_32, NO_DELAY};

// An admitted link: the slot that it comes from, and its mark.
#[derive(Clone, Copy)]
pub(crate) struct Link {
    pub(crate) from: u32,
    pub(crate) by: Mark,
}

// Of the earliest of each mark the first. For each, t stands for none, so that the least of the three needs no cases.
fn first_of(arrivals: u32, delay: u32, buffer: u32, t: u32) -> Option<Link>
    ensures early { MatchOption result (Unit {0}) (λ l. l.from < t) }
    ensures found { (f a u : ℕ → ℕ) (d q : Limit) (slots : ℕ) → Earliest f d q a slots u 1 t arrivals → Earliest f d q a slots u 2 t delay → Earliest f d q a slots u 3 t buffer → AdmittedFound f d q a slots u t (from_of result) (by_of result) }
{
    let from = arrivals.min(delay).min(buffer);
    if from >= t {
        return None;
    }
    if arrivals == from {
        return Some(Link {
            from,
            by: Mark::Arrivals,
        });
    }
    if delay == from {
        return Some(Link {
            from,
            by: Mark::Delay,
        });
    }
    Some(Link {
        from,
        by: Mark::Buffer,
    })
}

impl Rows {
    // Where all of U(t) has just departed by the deadline, a departed link to that; t where there is none.
    fn delay_start(&self, t: usize) -> u32
        requires { (t ≤ self.now.reach) × (self.now.reach ≤ 4160) }
        ensures { (f a u v : ℕ → ℕ) → Read self.now f a u v → EarliestOf self.now f a u 2 t result }
    {
        let due = t + self.delay as usize;
        if self.delay == NO_DELAY || due > self.reach || self.departed[due] != self.admitted[t] {
            return t as u32;
        }
        self.starts[due].min(t as u32)
    }

    // Where the buffer is full, a departed link to the slot before; t where there is none.
    fn buffer_start(&self, t: usize) -> u32
        requires { (1 ≤ t) × (t ≤ self.now.reach) × (self.now.reach ≤ 4160) }
        ensures { (f a u v : ℕ → ℕ) → Read self.now f a u v → EarliestOf self.now f a u 3 t result }
    {
        let before = t - 1;
        if self.buffer == NO_BUFFER_32 {
            return t as u32;
        }
        if makes(self.departed[before], self.buffer, self.admitted[t]) {
            self.starts[before]
        } else {
            t as u32
        }
    }

    // `same` is the earliest slot with the loss of slot t.
    pub(crate) fn admitted_link(&self, t: usize, same: usize) -> Option<Link>
        requires { (1 ≤ t) × (t ≤ self.now.reach) × (self.now.reach ≤ 4160) × (same ≤ t) }
        ensures early { MatchOption result (Unit {0}) (λ l. l.from < t) }
        ensures found { (f a u v : ℕ → ℕ) → Read self.now f a u v → EarliestOf self.now f a u 1 t same → FoundOf self.now f a u t (from_of result) (by_of result) }
    {
        first_of(
            same as u32,
            self.delay_start(t),
            self.buffer_start(t),
            t as u32,
        )
    }
}
