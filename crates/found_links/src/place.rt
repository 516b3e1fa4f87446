// A place of a chain's three lists.
ghost use Rattle.std.specs.Prelude.{◌≡◌, ◌<◌, length, set};

// Puts a slot, a mark and an amount there.
pub(crate) fn put(
    place: usize,
    slot: u32,
    mark: u32,
    amount: u32,
    slots: &mut [u32],
    marks: &mut [u32],
    amounts: &mut [u32],
)
    requires { (place < 4097) × (place < length slots.old) × (place < length marks.old) × (place < length amounts.old) }
    ensures { (slots.new ≡ set slots.old place slot) × (marks.new ≡ set marks.old place mark) × (amounts.new ≡ set amounts.old place amount) }
{
    slots[place] = slot;
    marks[place] = mark;
    amounts[place] = amount;
}
