// The checker of anyone's chain: one pass over its places.
ghost use Rattle.std.specs.Prelude.{◌≡◌, ℕ, ◌≤◌, List, length};
ghost use Rattle.chain_calculus.specs.Chain.{start_sound};
ghost use Rattle.chain.specs.Chains.{sound_to};
ghost use Rattle.chain.specs.Prepared.{Checkable};
ghost use Rattle.chain.specs.CheckerAnswer.{checked_given, checked_of};

use crate::judge::chain_refusal;
use crate::link::link_sound;
use crate::rows::{total_row, window_row};
use numbers::count::{Packets, Slots};
use numbers::size::LONGEST_DELAY;
use orders::refusal::Refusal;

// A chain's lists, and how many of their places it has.
#[derive(Clone, Copy)]
struct Chain<'a> {
    slots: &'a [u32],
    marks: &'a [u32],
    amounts: &'a [u32],
    places: usize,
}

impl<'a> Chain<'a> {
    // Whether the first place is 0, 0, 0.
    #[tactic(auto, unfolding(chain_calculus::specs::Chain::start_sound))]
    fn start_sound(&self) -> bool
        requires { (1 ≤ length self.now.slots.now) × (1 ≤ length self.now.marks.now) × (1 ≤ length self.now.amounts.now) }
        ensures { result ≡ start_sound self.now.slots.now self.now.marks.now self.now.amounts.now }
    {
        self.slots[0] == 0 && self.marks[0] == 0 && self.amounts[0] == 0
    }

    // Whether it is sound, whichever table and trace the rows belong to. No slot of a sound one is above its last.
    fn sound(
        &self,
        windows: &[u32; 4161],
        arrived: &[u32; 4161],
        delay: u32,
        buffer: u32,
        t: u32,
    ) -> bool
        requires { (length self.now.marks.now ≡ length self.now.slots.now) × (length self.now.amounts.now ≡ length self.now.slots.now) }
        ensures { (table trace : List ℕ) → Checkable table delay buffer trace t windows.now arrived.now → result ≡ sound_to table delay buffer trace t self.now.slots.now self.now.marks.now self.now.amounts.now self.now.places }
    {
        if self.places == 0 || self.places > self.slots.len() || !self.start_sound() {
            return false;
        }
        let last = self.places - 1;
        for n in 0..last {
            let next = n + 1;
            if self.slots[next] > t {
                return false;
            }
            let from = self.slots[n] as usize;
            let to = self.slots[next] as usize;
            if !link_sound(
                windows,
                arrived,
                delay,
                buffer,
                from,
                to,
                self.marks[next],
                self.amounts[next],
            ) {
                return false;
            }
        }
        self.slots[last] == t
    }
}

// Whether anyone's chain to a slot of a trace is sound. Places beyond their number are not looked at.
pub fn check_chain(
    table: &[u32],
    delay: Slots,
    buffer: Packets,
    arrivals: &[u32],
    slot: Slots,
    slots: &[u32],
    marks: &[u32],
    amounts: &[u32],
    places: u32,
) -> Result<bool, Refusal>
    ensures { checked_given result ≡ checked_of table.now delay.0 buffer.0 arrivals.now slot.0 slots.now marks.now amounts.now places }
{
    chain_refusal(
        table,
        delay,
        buffer,
        arrivals,
        slot,
        slots.len(),
        marks.len(),
        amounts.len(),
    )?;
    let reach = slot.0 as usize + LONGEST_DELAY as usize;
    let mut windows = [0; 4161];
    let mut arrived = [0; 4161];
    window_row(table, reach, &mut windows);
    total_row(arrivals, &mut arrived);
    let chain = Chain {
        slots,
        marks,
        amounts,
        places: places as usize,
    };
    Ok(chain.sound(&windows, &arrived, delay.0, buffer.0 as u32, slot.0))
}
