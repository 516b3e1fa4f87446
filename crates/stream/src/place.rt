// The bursts placed into a list of slots, each at its own.
ghost use Rattle.std.specs.Prelude.{◌≡◌, length};
ghost use Rattle.stream.specs.PlacedBurst.{placed, arrived_from};

use crate::number::number_at;

fn put_burst(slot: u32, count: u32, arrivals: &mut [u32])
    ensures { arrivals.new ≡ placed slot count arrivals.old }
{
    let slot = slot as usize;
    if 1 <= slot && slot <= arrivals.len() {
        arrivals[slot - 1] = count;
    }
}

// A slot not named has 0 arrivals. The bursts are placed from the last to the first, so that the list follows the definition,
// which takes the first burst that names a slot.
pub(crate) fn place(file: &[u8], arrivals: &mut [u32])
    ensures { arrivals.new ≡ arrived_from file.now 0 (length arrivals.old) }
{
    arrivals.fill(0);
    let bursts = number_at(file, 2) as usize;
    let slots_from = 6 + number_at(file, 0) as usize;
    let counts_from = slots_from + bursts;
    for k in (0..bursts).rev() {
        let slot = number_at(file, slots_from + k);
        let count = number_at(file, counts_from + k);
        put_burst(slot, count, arrivals);
    }
}
