// The closure of a table, worked once from window 0 up. A row holds it newest first, so that the windows that are
// summed stand in the order of the table. Entries are at most 1,000,000, so no sum leaves 32 bits.
ghost use Rattle.std.specs.Prelude.{◌≡◌, ℕ, ◌+◌, ◌≤◌, ◌<◌, ◌-◌, min, length, drop, get_or};
ghost use Rattle.calculus.specs.Numbers.Lists.{newest_first};
ghost use Rattle.numbers.specs.LeastSum.{least_with};
ghost use Rattle.envelope.specs.ClosureRow.{closed_by, piece_by, placed, Told, told_by};

use crate::entries::Entries;
use crate::piece::Worked;

// The least of `first` and of the sums at the first n places of two rows.
#[tactic(auto, using(numbers::proofs::LeastSum::least_with_more), unfolding(numbers::specs::LeastSum::least_with))]
fn least_with(first: u32, a: &[u32], b: &[u32], n: usize) -> u32
    requires { (n ≤ length a.now) × (n ≤ length b.now) × ((i : ℕ) → i < n → get_or a.now i 0 + get_or b.now i 0 < 4294967296) }
    ensures { result ≡ least_with first a.now b.now n }
{
    let mut least = first;
    for i in 0..n {
        least = least.min(a[i] + b[i]);
    }
    least
}

impl Entries<'_> {
    // f(n): the n values before it stand in the row from `at` on; the first of them, f(n-1), is also given, which spares
    // waiting for its store.
    fn next(&self, row: &[u32], at: usize, n: usize, newest: u32) -> Worked
        requires { (1 ≤ n) × (n ≤ 4160) × (at + n ≡ length row.now) × (newest ≡ closed_by self.now.table.now self.now.last (n - 1)) × (drop at row.now ≡ newest_first (closed_by self.now.table.now self.now.last) n) }
        ensures { (result.f ≡ closed_by self.now.table.now self.now.last n) × Told (told_by result.first result.between result.f (min n self.now.last)) (piece_by self.now.table.now self.now.last n) }
    {
        let m = n.min(self.last);
        let first = newest + self.table[1];
        if m == 1 {
            return Worked {
                first,
                between: 0,
                f: first,
            };
        }
        let from = at + 1;
        let between = least_with(u32::MAX, &row[from..], &self.table[2..], m - 2);
        let end = at + m - 1;
        let whole = row[end] + self.table[m];
        let f = between.min(whole).min(first);
        Worked { first, between, f }
    }

    // Fills the row with f at as many windows as it has places, window 0 last, and puts their first pieces at the same places
    // of the other list, where it has them. Window 0 has no sums: they tell nothing of its piece.
    pub(crate) fn close(&self, row: &mut [u32], pieces: &mut [u32])
        requires { length row.old ≤ 4161 }
        ensures { (row.new ≡ newest_first (closed_by self.now.table.now self.now.last) (length row.old)) × (pieces.new ≡ placed (piece_by self.now.table.now self.now.last) (length row.old) pieces.old (length row.old)) }
    {
        let len = row.len();
        if len == 0 {
            return;
        }
        let none = Worked {
            first: 1,
            between: 0,
            f: 0,
        };
        self.put(none, row, pieces, len - 1);
        let mut newest: u32 = 0;
        for n in 1..len {
            let at = len - n;
            let found = self.next(row, at, n, newest);
            self.put(found, row, pieces, at - 1);
            newest = found.f;
        }
    }
}
