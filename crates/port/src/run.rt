// The port's run, slot after slot.
ghost use Rattle.std.specs.Prelude.{◌≡◌, ℕ, ◌+◌, ◌*◌, ◌≤◌, ◌<◌, length, get_or};
ghost use Rattle.orders.specs.Answered.{verdict_given};
ghost use Rattle.port_calculus.specs.Port.{port_rows, late_row};
ghost use Rattle.port.specs.PortRun.{PortRan};
ghost use Rattle.port.specs.Accepted.{Accepted};
ghost use Rattle.port.specs.PortWork.{queue_of, Deadlines, Written, Passed, Overdue, Standing};

use crate::judge::port_refusal;
use crate::queue::{Reach, Waiting, reach_of};
use numbers::count::Slots;
use orders::refusal::Refusal;

// Lists what slot t+1 sent.
fn list(streams: usize, slots: usize, t: usize, counts: &[u32], sent: &mut [u32])
    requires { (streams ≤ 8) × (slots ≤ 256) × (t < slots) × (length counts.now ≡ 8) × (length sent.old ≡ streams * slots) }
    ensures { Written slots t streams (λ i. get_or counts.now i 0) sent.old sent.new }
{
    // The slot's places lie `slots` apart.
    for i in 0..streams {
        sent[i * slots + t] = counts[i];
    }
}

// A packet that waits after its due slot is late, whether it is sent later or not.
fn count_late(streams: usize, t: usize, row: &[u32], late: &mut [u32])
    requires { (streams ≤ 8) × (t < 256) × (length row.now ≡ 2568) × (length late.old ≡ streams) × ((i : ℕ) → i < streams → get_or late.old i 0 + queue_of row.now (t + 1) i < 4294967296) }
    ensures { Overdue t streams row.now late.old late.new }
{
    let base = 8 * (t + 1);
    for i in 0..streams {
        late[i] += row[base + i];
    }
}

// Lists what comes in slot t+1 as sent. Answered is how many packets that is.
fn pass(streams: usize, slots: usize, t: usize, input: &[u32], sent: &mut [u32]) -> u32
    requires { (streams ≤ 8) × (slots ≤ 256) × (t < slots) × (length input.now ≡ streams * slots) × (length sent.old ≡ streams * slots) × ((k : ℕ) → get_or input.now k 0 ≤ 1000000) }
    ensures { Passed slots t streams input.now sent.old result sent.new }
{
    let mut comes = 0;
    // The slot's places lie `slots` apart, in both lists.
    for i in 0..streams {
        let count = input[i * slots + t];
        sent[i * slots + t] = count;
        comes += count;
    }
    comes
}

// What a run is given, and how far its deadlines reach.
#[derive(Clone, Copy)]
struct Port<'a> {
    deadlines: &'a [u32],
    slots: usize,
    capacity: u32,
    input: &'a [u32],
    reach: Reach,
}

impl Port<'_> {
    // Works slot t+1 by the queue; nothing that waits is due before slot `first`. Answered is the next such slot.
    fn serve(
        &self,
        t: usize,
        first: usize,
        queue: &mut Waiting,
        sent: &mut [u32],
        late: &mut [u32],
    ) -> usize
        requires { (t < self.now.slots) × Accepted self.now.deadlines.now self.now.slots self.now.input.now (length sent.old) (length late.old) × Deadlines self.now.deadlines.now (length self.now.deadlines.now) self.now.reach.nearest self.now.reach.furthest × Standing self.now.deadlines.now self.now.slots self.now.capacity self.now.input.now t first queue.old.row queue.old.totals sent.old late.old }
        ensures { Standing self.now.deadlines.now self.now.slots self.now.capacity self.now.input.now (t + 1) result queue.new.row queue.new.totals sent.new late.new }
    {
        queue.arrive(self.deadlines, self.slots, self.input, t);
        let mut counts = [0; 8];
        let streams = self.deadlines.len();
        let from = first.min(t + 1 + self.reach.nearest);
        let to = t + 2 + self.reach.furthest;
        let next = queue.send(streams, self.capacity, from, to, &mut counts);
        list(streams, self.slots, t, &counts, sent);
        count_late(streams, t, &queue.row, late);
        next
    }

    // Works slot t+1. Where nothing waits and the port can send all that comes, that is sent, and the queue stays empty; what
    // waits is due by slot t + `furthest` at the latest.
    fn slot(
        &self,
        t: usize,
        first: usize,
        queue: &mut Waiting,
        sent: &mut [u32],
        late: &mut [u32],
    ) -> usize
        requires { (t < self.now.slots) × Accepted self.now.deadlines.now self.now.slots self.now.input.now (length sent.old) (length late.old) × Deadlines self.now.deadlines.now (length self.now.deadlines.now) self.now.reach.nearest self.now.reach.furthest × Standing self.now.deadlines.now self.now.slots self.now.capacity self.now.input.now t first queue.old.row queue.old.totals sent.old late.old }
        ensures { Standing self.now.deadlines.now self.now.slots self.now.capacity self.now.input.now (t + 1) result queue.new.row queue.new.totals sent.new late.new }
    {
        if first > t + self.reach.furthest {
            let comes = pass(self.deadlines.len(), self.slots, t, self.input, sent);
            if comes <= self.capacity {
                return t + 2 + self.reach.furthest;
            }
        }
        self.serve(t, first, queue, sent, late)
    }

    // Works the slots one after another.
    fn work(&self, sent: &mut [u32], late: &mut [u32])
        requires { Accepted self.now.deadlines.now self.now.slots self.now.input.now (length sent.old) (length late.old) × Deadlines self.now.deadlines.now (length self.now.deadlines.now) self.now.reach.nearest self.now.reach.furthest }
        ensures { (sent.new ≡ port_rows self.now.deadlines.now self.now.slots self.now.capacity self.now.input.now) × (late.new ≡ late_row self.now.deadlines.now self.now.slots self.now.capacity self.now.input.now) }
    {
        // Places for due slots 0 to 320.
        let mut queue = Waiting {
            row: [0; 2568],
            totals: [0; 321],
        };
        late.fill(0);
        let mut first = 0;
        for t in 0..self.slots {
            first = self.slot(t, first, &mut queue, sent, late);
        }
    }
}

// Runs a port: both lists are filled, or it is refused and neither of them is written. `input` and `sent` hold each stream's
// slots in turn, stream after stream.
pub fn port_run(
    deadlines: &[u32],
    slots: Slots,
    capacity: u32,
    input: &[u32],
    sent: &mut [u32],
    late: &mut [u32],
) -> Result<(), Refusal>
    ensures { PortRan deadlines.now slots.0 capacity input.now sent.old late.old (verdict_given result) sent.new late.new }
{
    let count = slots.0;
    port_refusal(deadlines, count, input, sent.len(), late.len())?;
    let port = Port {
        deadlines,
        slots: count as usize,
        capacity,
        input,
        reach: reach_of(deadlines),
    };
    port.work(sent, late);
    Ok(())
}
