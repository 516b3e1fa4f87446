// The parts of the printed table: its heading, one line for each slot, and the line of totals.
ghost use Rattle.std.specs.Prelude.{◌≡◌, ◌+◌, ◌*◌, ◌^◌, ◌≤◌, ◌<◌, length, sum};
ghost use Rattle.calculus.specs.Numbers.Sizes.{most_trace};
ghost use Rattle.text.specs.Digits.{digits};
ghost use Rattle.text.specs.Counts.{fields, CountsAt};
ghost use Rattle.text.specs.Lines.{line, heading, slot_lines, total_line, table_text};
ghost use Rattle.text.specs.Printed.{line_room, heading_and_totals_room, Columns, Printed, table_fits};
ghost use Rattle.text.specs.Put.{Put};

use crate::bytes::put_word;
use crate::line::{Counts, put_counts};
use crate::number::put_number;
use crate::print::{HEADING_AND_TOTALS_ROOM, LINE_ROOM};
use numbers::size::LONGEST_TRACE;

fn total(counts: &[u32]) -> u64
    requires { length counts.now ≤ most_trace }
    ensures added { result ≡ sum counts.now }
    ensures bounded { result < 10 ^ 14 }
{
    counts.iter().map(|count| u64::from(*count)).sum()
}

#[tactic(auto, unfolding(crate::specs::Lines::heading, crate::specs::Lines::bytes))]
fn put_heading(out: &mut [u8], at: usize) -> usize
    ensures { Put out.old at heading out.new result }
{
    put_word(b"slot arrived admitted dropped departed held\n", out, at)
}

fn put_line(slot: usize, counts: Counts, out: &mut [u8], at: usize) -> usize
    ensures { Put out.old at (line (digits slot) (fields counts)) out.new result }
{
    let place = put_number(slot as u64, out, at);
    put_counts(counts, out, place)
}

// The four lists of a table: packets arrived, admitted, dropped and departed in each slot.
#[derive(Clone, Copy)]
pub(crate) struct Lists<'a> {
    pub(crate) arrived: &'a [u32],
    pub(crate) admitted: &'a [u32],
    pub(crate) dropped: &'a [u32],
    pub(crate) departed: &'a [u32],
}

impl Lists<'_> {
    // Lists of one length, at most 4,096 slots, 64 bytes for each slot's line and 128 for the heading and the line of totals.
    #[tactic(auto, unfolding(crate::specs::Printed::table_fits))]
    pub(crate) fn fit(&self, room: usize) -> bool
        ensures { result ≡ table_fits self.now.arrived.now self.now.admitted.now self.now.dropped.now self.now.departed.now room }
    {
        let slots = self.arrived.len();
        self.admitted.len() == slots
            && self.dropped.len() == slots
            && self.departed.len() == slots
            && slots <= LONGEST_TRACE
            && LINE_ROOM * slots + HEADING_AND_TOTALS_ROOM <= room
    }

    // The counts of the slot at place t, and what is held after it: so many packets were admitted and departed before. Lists that
    // no regulator gave may have more departed than admitted: then nothing is held.
    fn counts_at(&self, t: usize, admitted_before: u64, departed_before: u64) -> Counts
        requires { Columns self.now.arrived.now self.now.admitted.now self.now.dropped.now self.now.departed.now × (t < length self.now.arrived.now) × (admitted_before ≤ 2 ^ 32 * t) × (departed_before ≤ 2 ^ 32 * t) }
        ensures { CountsAt self.now.arrived.now self.now.admitted.now self.now.dropped.now self.now.departed.now t admitted_before departed_before result }
    {
        let admitted = u64::from(self.admitted[t]);
        let departed = u64::from(self.departed[t]);
        let admitted_after = admitted_before + admitted;
        let departed_after = departed_before + departed;
        Counts {
            arrived: u64::from(self.arrived[t]),
            admitted,
            dropped: u64::from(self.dropped[t]),
            departed,
            held: admitted_after.saturating_sub(departed_after),
        }
    }

    // One line for each slot, with the admitted and the departed total carried along.
    fn put_slots(&self, out: &mut [u8], at: usize) -> usize
        requires { Columns self.now.arrived.now self.now.admitted.now self.now.dropped.now self.now.departed.now × (at ≤ length out.old) }
        ensures { Put out.old at (slot_lines self.now.arrived.now self.now.admitted.now self.now.dropped.now self.now.departed.now (length self.now.arrived.now)) out.new result × (length (slot_lines self.now.arrived.now self.now.admitted.now self.now.dropped.now self.now.departed.now (length self.now.arrived.now)) ≤ line_room * length self.now.arrived.now) }
    {
        let mut admitted_total = 0;
        let mut departed_total = 0;
        let mut place = at;
        for t in 0..self.arrived.len() {
            let counts = self.counts_at(t, admitted_total, departed_total);
            admitted_total += counts.admitted;
            departed_total += counts.departed;
            place = put_line(t + 1, counts, out, place);
        }
        place
    }

    // The line of totals, with what is held after the last slot.
    fn put_totals(&self, out: &mut [u8], at: usize) -> usize
        requires { Columns self.now.arrived.now self.now.admitted.now self.now.dropped.now self.now.departed.now }
        ensures { Put out.old at (total_line self.now.arrived.now self.now.admitted.now self.now.dropped.now self.now.departed.now (length self.now.arrived.now)) out.new result × (length (total_line self.now.arrived.now self.now.admitted.now self.now.dropped.now self.now.departed.now (length self.now.arrived.now)) ≤ 84) }
    {
        let admitted = total(self.admitted);
        let departed = total(self.departed);
        let counts = Counts {
            arrived: total(self.arrived),
            admitted,
            dropped: total(self.dropped),
            departed,
            held: admitted.saturating_sub(departed),
        };
        let place = put_word(b"total", out, at);
        put_counts(counts, out, place)
    }

    // The whole table, from the start of the slice on.
    pub(crate) fn put_whole(&self, out: &mut [u8]) -> usize
        requires { Columns self.now.arrived.now self.now.admitted.now self.now.dropped.now self.now.departed.now × (line_room * length self.now.arrived.now + heading_and_totals_room ≤ length out.old) }
        ensures { Printed out.old (table_text self.now.arrived.now self.now.admitted.now self.now.dropped.now self.now.departed.now) out.new result }
    {
        let first = put_heading(out, 0);
        let last = self.put_slots(out, first);
        self.put_totals(out, last)
    }
}
