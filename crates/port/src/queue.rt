// The port's queue of waiting packets.
ghost use Rattle.std.specs.Prelude.{◌≡◌, ℕ, ◌+◌, ◌*◌, ◌≤◌, ◌<◌, length, get_or};
ghost use Rattle.port.specs.PortWork.{queue_of, Queue, Deadlines, Arrived, NoneDue, SentDue, SentWhole, Sendable, SentAll};

// The least and the greatest deadline.
#[derive(Clone, Copy)]
pub struct Reach {
    pub nearest: usize,
    pub furthest: usize,
}

pub(crate) fn reach_of(deadlines: &[u32]) -> Reach
    requires { (i : ℕ) → get_or deadlines.now i 0 ≤ 64 }
    ensures { Deadlines deadlines.now (length deadlines.now) result.nearest result.furthest }
{
    let mut nearest: usize = 64;
    let mut furthest: usize = 0;
    for deadline in deadlines {
        nearest = nearest.min(*deadline as usize);
        furthest = furthest.max(*deadline as usize);
    }
    Reach { nearest, furthest }
}

// Sends, of the `left` packets that the port may still send, those that are due by one slot, the lower stream first. Answered is
// what is left then.
fn send_due(base: usize, streams: usize, left: u32, row: &mut [u32], counts: &mut [u32]) -> u32
    requires { (base + streams ≤ length row.old) × (length row.old ≤ 2568) × (streams ≤ length counts.old) × (length counts.old ≡ 8) × ((i : ℕ) → get_or counts.old i 0 + left < 4294967296) }
    ensures { SentDue base streams left row.old counts.old result row.new counts.new }
{
    let mut rest = left;
    // By index: what a `zip` that changes two slices leaves in them is not known to a proof.
    for i in 0..streams {
        let goes = row[base + i].min(rest);
        row[base + i] -= goes;
        counts[i] += goes;
        rest -= goes;
    }
    rest
}

// Sends all packets that are due by one slot.
fn send_whole(base: usize, row: &mut [u32], counts: &mut [u32])
    requires { (base + 8 ≤ length row.old) × (length row.old ≤ 2568) × (length counts.old ≡ 8) × ((i : ℕ) → i < 8 → get_or counts.old i 0 + get_or row.old (base + i) 0 < 4294967296) }
    ensures { SentWhole base 8 row.old counts.old row.new counts.new }
{
    // By index, as in `send_due`.
    for i in 0..8 {
        counts[i] += row[base + i];
        row[base + i] = 0;
    }
}

// A row of waiting packets, those of stream i due by slot u at place 8·u + i, so that the row lies in the order of sending; and
// beside it how many are due by each slot, so that slots without packets are passed over at a look.
#[derive(Drop)]
pub(crate) struct Waiting {
    pub(crate) row: [u32; 2568],
    pub(crate) totals: [u32; 321],
}

impl Waiting {
    // Puts what the streams bring in slot t+1 in its places, and adds it to what is due by its slot.
    pub(crate) fn arrive(&mut self, deadlines: &[u32], slots: usize, input: &[u32], t: usize)
        requires { (length deadlines.now ≤ 8) × (slots ≤ 256) × (t < slots) × ((i : ℕ) → get_or deadlines.now i 0 ≤ 64) × (length input.now ≡ length deadlines.now * slots) × ((k : ℕ) → get_or input.now k 0 ≤ 1000000) × Queue self.old.row self.old.totals × ((i : ℕ) → i < length deadlines.now → queue_of self.old.row (t + 1 + get_or deadlines.now i 0) i ≡ 0) }
        ensures { Arrived deadlines.now slots input.now t (length deadlines.now) self.old.row self.new.row × Queue self.new.row self.new.totals }
    {
        for (i, deadline) in deadlines.iter().enumerate() {
            let due = t + 1 + *deadline as usize;
            let comes = input[i * slots + t];
            self.row[8 * due + i] = comes;
            self.totals[due] += comes;
        }
    }

    // The first slot from `from` on, and before `to`, by which packets are due; `to` where there is none.
    fn next_due(&self, from: usize, to: usize) -> usize
        requires { (from ≤ to) × (to ≤ length self.now.totals) × (length self.now.totals ≡ 321) }
        ensures { NoneDue self.now.totals from result × (result ≤ to) }
    {
        for due in from..to {
            if self.totals[due] != 0 {
                return due;
            }
        }
        to
    }

    // Sends up to `capacity` packets, the earliest due first; no packet is due before slot `from`, nor by slot `to` or later. Answered
    // is a due slot before which nothing waits any more.
    pub(crate) fn send(
        &mut self,
        streams: usize,
        capacity: u32,
        from: usize,
        to: usize,
        counts: &mut [u32],
    ) -> usize
        requires { Sendable streams from to self.old.row self.old.totals counts.old }
        ensures { (result ≤ to) × SentAll streams capacity to self.old.row result self.new.row self.new.totals counts.new }
    {
        let mut left = capacity;
        let mut due = self.next_due(from, to);
        // It steps by what waits, from one due slot to the next, not by one.
        while due < to {
            let total = self.totals[due];
            if total > left {
                send_due(8 * due, streams, left, &mut self.row, counts);
                self.totals[due] -= left;
                return due;
            }
            send_whole(8 * due, &mut self.row, counts);
            self.totals[due] = 0;
            left -= total;
            due = self.next_due(due + 1, to);
        }
        due
    }
}
