// The first piece of f, told by the sums or read off the row in which f was worked.
ghost use Rattle.std.specs.Prelude.{◌≡◌, ◌+◌, ◌-◌, ◌≤◌, ◌<◌, min, length, drop, set};
ghost use Rattle.calculus.specs.Numbers.Lists.{newest_first};
ghost use Rattle.envelope.specs.ClosureRow.{closed_by, piece_by, Told, told_by};

use crate::entries::Entries;

// f at a window, and what it is the least of: the sum with window 1, the least of those between, and the one with the last
// window, which is not kept.
#[derive(Clone, Copy)]
pub(crate) struct Worked {
    pub first: u32,
    pub between: u32,
    pub f: u32,
}

impl Entries<'_> {
    // The piece of the row's first value, f at the window before its length. For every window from 1 on there is one, at L or
    // below and not above the window: the search needs no other end.
    fn first_piece(&self, row: &[u32]) -> u32
        requires { (1 ≤ length row.now) × (length row.now ≤ 4161) × (row.now ≡ newest_first (closed_by self.now.table.now self.now.last) (length row.now)) }
        ensures { result ≡ piece_by self.now.table.now self.now.last (length row.now - 1) }
    {
        if row.len() == 1 {
            return 0;
        }
        let f = row[0];
        // A library's search would look for the row's end in each turn as well.
        let mut k: usize = 1;
        while self.table[k] + row[k] != f {
            k += 1;
        }
        k as u32
    }

    // The piece where the sums tell it, else looked for in the row: it is window 1 where the sum with it makes f, and the last
    // window where no sum between does.
    fn piece_or(&self, worked: Worked, row: &[u32]) -> u32
        requires { (1 ≤ length row.now) × (length row.now ≤ 4161) × (row.now ≡ newest_first (closed_by self.now.table.now self.now.last) (length row.now)) × Told (told_by worked.first worked.between worked.f (min (length row.now - 1) self.now.last)) (piece_by self.now.table.now self.now.last (length row.now - 1)) }
        ensures { result ≡ piece_by self.now.table.now self.now.last (length row.now - 1) }
    {
        if worked.first == worked.f {
            return 1;
        }
        if worked.f < worked.between {
            return (row.len() - 1).min(self.last) as u32;
        }
        self.first_piece(row)
    }

    // Puts f at its place of the row, before the values of earlier windows, and the piece at the same place of the list, where
    // it has one.
    pub(crate) fn put(&self, worked: Worked, row: &mut [u32], pieces: &mut [u32], place: usize)
        requires { (place < length row.old) × (length row.old ≤ 4161) × (drop (place + 1) row.old ≡ newest_first (closed_by self.now.table.now self.now.last) (length row.old - 1 - place)) × (worked.f ≡ closed_by self.now.table.now self.now.last (length row.old - 1 - place)) × Told (told_by worked.first worked.between worked.f (min (length row.old - 1 - place) self.now.last)) (piece_by self.now.table.now self.now.last (length row.old - 1 - place)) }
        ensures { (row.new ≡ set row.old place worked.f) × (pieces.new ≡ set pieces.old place (piece_by self.now.table.now self.now.last (length row.old - 1 - place))) }
    {
        row[place] = worked.f;
        if place < pieces.len() {
            pieces[place] = self.piece_or(worked, &row[place..]);
        }
    }
}
