// The finder: the chain to a slot, each link found from the slot it ends in, working back to slot 0.
ghost use Rattle.std.specs.Prelude.{◌≡◌, List, ℕ, suc, ◌≤◌, ◌<◌, length, MatchOption};
ghost use Rattle.refusals.specs.WholeTrace.{run_refusal};
ghost use Rattle.found_links.specs.OurRows.{OurRows, ChainRows};
ghost use Rattle.found_links.specs.FinderAnswer.{Finding, found_given};
ghost use Rattle.found_links.specs.Links.{Read, EarliestOf, FoundOf, from_of, by_of};
ghost use Rattle.found_links.specs.Put.{Put};

use crate::found::Link;
use crate::place::put;
use crate::rows::Rows;
use chain::judge::chain_refusal;
use chain::link::grown;
use numbers::count::{Packets, Slots};
use numbers::size::LONGEST_DELAY;
use orders::refusal::Refusal;
use trace::run::run;

impl Rows {
    // The earliest slot with the loss of slot t: losses do not fall.
    fn loss_start(&self, t: usize) -> usize
        requires { t ≤ 4160 }
        ensures within { result ≤ t }
        ensures earliest { (f a u v : ℕ → ℕ) → Read self.now f a u v → t ≤ self.now.reach → EarliestOf self.now f a u 1 t result }
    {
        for s in (0..t).rev() {
            if self.lost[s] != self.lost[t] {
                return s + 1;
            }
        }
        0
    }

    // The link that ends in slot t, read off rows that reach its deadline; slot 0 ends none.
    fn link_to(&self, t: usize) -> Option<Link>
        requires { (t ≤ self.now.reach) × (self.now.reach ≤ 4160) }
        ensures early { MatchOption result (Unit {0}) (λ l. l.from < t) }
        ensures found { (f a u v : ℕ → ℕ) → Read self.now f a u v → 1 ≤ t → FoundOf self.now f a u t (from_of result) (by_of result) }
    {
        if t == 0 {
            return None;
        }
        self.admitted_link(t, self.loss_start(t))
    }

    // Reads the rows of our own run of a trace.
    fn read_trace(&mut self, table: &[u32], delay: Slots, buffer: Packets, arrivals: &[u32])
        requires { (run_refusal table.now delay.0 buffer.0 arrivals.now (length arrivals.now) (length arrivals.now) (length arrivals.now) ≡ 0) × (length arrivals.now ≤ 4096) × (self.old.reach ≤ 4160) }
        ensures { (self.new.delay ≡ self.old.delay) × (self.new.buffer ≡ self.old.buffer) × (self.new.reach ≡ self.old.reach) × OurRows table.now delay.0 buffer.0 arrivals.now self.old.reach self.new.admitted self.new.lost self.new.departed self.new.starts }
    {
        let slots = arrivals.len();
        let (mut ins, mut drops, mut outs) = ([0; 4161], [0; 4161], [0; 4161]);
        let ins = &mut ins[..slots];
        let drops = &mut drops[..slots];
        let outs = &mut outs[..slots];
        // What it would refuse was judged before.
        run(table, delay, buffer, arrivals, ins, drops, outs).unwrap();
        self.read_run(table, ins, drops, outs);
    }
}

// The chain to slot t is that to its last link's first slot, and then the slot, the link's mark and its amount, which is
// what X grows by over it. Whichever table and trace the rows belong to, slot 0 alone ends no link.
fn find(rows: &Rows, t: usize, slots: &mut [u32], marks: &mut [u32], amounts: &mut [u32]) -> usize
    requires { (t ≤ 4096) × (t < length slots.old) × (t < length marks.old) × (t < length amounts.old) × (t ≤ rows.now.reach) × (rows.now.reach ≤ 4160) }
    ensures { (result ≤ suc t) × ((table trace : List ℕ) (last : ℕ) → ChainRows table rows.now.delay rows.now.buffer trace last rows.now.reach rows.now.admitted rows.now.lost rows.now.departed rows.now.starts → t ≤ last → Put table rows.now.delay rows.now.buffer trace t slots.old marks.old amounts.old result slots.new marks.new amounts.new) }
{
    let Some(link) = rows.link_to(t) else {
        put(0, 0, 0, 0, slots, marks, amounts);
        return 1;
    };
    let first = link.from as usize;
    let places = find(rows, first, slots, marks, amounts);
    let mark = link.by.number();
    let amount = grown(rows.admitted[first], rows.admitted[t]);
    put(places, t as u32, mark, amount, slots, marks, amounts);
    places + 1
}

// The chain to a slot of a trace: its number of places, and its slots, marks and amounts at the lists' first places; or a
// refusal, and none of the lists is written.
pub fn find_chain(
    table: &[u32],
    delay: Slots,
    buffer: Packets,
    arrivals: &[u32],
    slot: Slots,
    slots: &mut [u32],
    marks: &mut [u32],
    amounts: &mut [u32],
) -> Result<u32, Refusal>
    ensures { Finding table.now delay.0 buffer.0 arrivals.now slot.0 slots.old marks.old amounts.old (found_given result) slots.new marks.new amounts.new }
{
    chain_refusal(
        table,
        delay,
        buffer,
        arrivals,
        slot,
        slots.len(),
        marks.len(),
        amounts.len(),
    )?;
    let t = slot.0 as usize;
    let reach = t + LONGEST_DELAY as usize;
    let mut rows = Rows::blank(delay.0, buffer.0 as u32, reach);
    rows.read_trace(table, delay, buffer, arrivals);
    let places = find(&rows, t, slots, marks, amounts);
    Ok(places as u32)
}
