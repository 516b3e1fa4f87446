// The row of totals: the last L departed totals first, newest first, and the slot's forecasts after them.
ghost use Rattle.std.specs.Prelude.{◌≡◌, set};
ghost use Rattle.least_sum.specs.Pushed.{pushed};

// One more departed total: the first `last` places move back by one, and the oldest of them is forgotten.
#[tactic(auto, using(least_sum::proofs::Pushed::pushed_nowhere, crate::proofs::PastRow::pushed_by_copy))]
pub fn push(row: &mut [u64], last: usize, newest: u64)
    ensures { row.new ≡ pushed last newest row.old }
{
    let count = last.min(row.len());
    if count == 0 {
        return;
    }
    row.copy_within(..count - 1, 1);
    row[0] = newest;
}

// A total at a place, if the row has it.
pub fn put(row: &mut [u64], place: usize, total: u64)
    ensures { row.new ≡ set row.old place total }
{
    if place < row.len() {
        row[place] = total;
    }
}
