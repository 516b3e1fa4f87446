// The rules, slot by slot, over running totals.
ghost use Rattle.std.specs.Prelude.{◌≡◌, ◌≤◌, ◌<◌, length, get_or, MatchOption};
ghost use Rattle.rivals.specs.Rules.{rule_number, window_of, over_buffer_of, over_delay_of, rule_of, slot_of, Held};

use refusals::limits::{NO_BUFFER, NO_DELAY};
use refusals::table::last_window;

// The rules, in the order in which they are tried.
#[derive(Clone, Copy, PartialEq, Eq)]
pub(crate) enum Rule {
    Arrivals,
    Admitted,
    Envelope,
    Buffer,
    Delay,
}

impl Rule {
    // Its number in a judgement.
    pub(crate) fn number(self) -> u32
        ensures { result ≡ rule_number self }
    {
        match self {
            Rule::Arrivals => 1,
            Rule::Admitted => 2,
            Rule::Envelope => 3,
            Rule::Buffer => 4,
            Rule::Delay => 5,
        }
    }
}

// Anyone's totals by the slots, with the set-up and the trace that they are judged by.
#[derive(Clone, Copy)]
pub(crate) struct Totals<'a> {
    pub(crate) table: &'a [u32],
    pub(crate) delay: u32,
    pub(crate) buffer: u64,
    pub(crate) arrivals: &'a [u32],
    pub(crate) admitted: &'a [u64],
    pub(crate) departed: &'a [u64],
}

impl<'a> Totals<'a> {
    // The smallest window that is broken at slot t.
    pub(crate) fn broken_window(&self, t: usize) -> Option<u32>
        requires { (length self.now.table.now ≤ 65) × (t < length self.now.departed.now) }
        ensures { MatchOption result (window_of self.now t ≡ 0) (λ k. (k ≡ window_of self.now t) × (1 ≤ k)) }
    {
        let last = last_window(self.table).min(t);
        // Not `1..=last`, which tests twice a turn.
        for k in 1..last + 1 {
            if self.departed[t].saturating_sub(self.departed[t - k]) > u64::from(self.table[k]) {
                return Some(k as u32);
            }
        }
        None
    }

    // Whether the fill before departures of slot t is above the buffer limit.
    fn over_buffer(&self, t: usize) -> bool
        requires { (1 ≤ t) × (t < length self.now.admitted.now) × (t < length self.now.departed.now) }
        ensures { result ≡ over_buffer_of self.now t }
    {
        self.buffer != NO_BUFFER
            && self.admitted[t].saturating_sub(self.departed[t - 1]) > self.buffer
    }

    // Whether packets are still held whose deadline is slot t.
    fn over_delay(&self, t: usize) -> bool
        requires { (t < length self.now.admitted.now) × (t < length self.now.departed.now) }
        ensures { result ≡ over_delay_of self.now t }
    {
        if self.delay == NO_DELAY {
            return false;
        }
        let ahead = self.delay as usize;
        ahead <= t && self.admitted[t - ahead] > self.departed[t]
    }

    // The first rule that is broken at slot t.
    fn rule_at(&self, t: usize) -> Option<Rule>
        requires { Held self.now × (1 ≤ t) × (t ≤ length self.now.arrivals.now) }
        ensures { MatchOption result (rule_of self.now t ≡ 0) (λ r. rule_number r ≡ rule_of self.now t) }
    {
        let before = t - 1;
        if self.admitted[t].saturating_sub(self.admitted[before])
            > u64::from(self.arrivals[before])
        {
            Some(Rule::Arrivals)
        } else if self.departed[t] > self.admitted[t] {
            Some(Rule::Admitted)
        } else if self.broken_window(t).is_some() {
            Some(Rule::Envelope)
        } else if self.over_buffer(t) {
            Some(Rule::Buffer)
        } else if self.over_delay(t) {
            Some(Rule::Delay)
        } else {
            None
        }
    }

    // The first slot in which a rule is broken, and the rule.
    pub(crate) fn broken_slot(&self) -> Option<(usize, Rule)>
        requires { Held self.now }
        ensures { MatchOption result (slot_of self.now ≡ 0) (λ b. (b.0 ≡ slot_of self.now) × (1 ≤ b.0) × (b.0 ≤ length self.now.arrivals.now) × (rule_number b.1 ≡ rule_of self.now b.0)) }
    {
        for t in 1..self.arrivals.len() + 1 {
            if let Some(rule) = self.rule_at(t) {
                return Some((t, rule));
            }
        }
        None
    }
}
