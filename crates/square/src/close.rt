// The closure of a square: lemma 2.1 (iv), row by row.
ghost use Rattle.std.specs.Prelude.{◌≡◌, ℕ, ◌+◌, ◌≤◌, get_or};
ghost use Rattle.calculus.specs.Numbers.Least.{least};
ghost use Rattle.calculus.specs.Numbers.Lists.{list_of};
ghost use Rattle.square_calculus.specs.Square.{square_entry, square_envelope, closure_of, closed_square};
ghost use Rattle.square.specs.Refusals.{Small};

// The least of row(r) + F(r,column) for r from `first` to `last`.
pub(crate) fn least_sum(
    square: &[[u32; 33]; 33],
    row: &[u32; 33],
    first: usize,
    last: usize,
    column: usize,
) -> u32
    requires { (first ≤ last) × (last ≤ 32) × (column ≤ 32) × ((k : ℕ) → get_or row.now k 0 ≤ 4000000000) × Small square.now }
    ensures { result ≡ least first last (λ k. get_or row.now k 0 + square_entry square.now k column) }
{
    // By index: a column's entries lie in as many rows of the square.
    let mut least = row[first] + square[first][column];
    for r in first + 1..last + 1 {
        least = least.min(row[r] + square[r][column]);
    }
    least
}

// Row s of the closure.
fn closed_row(square: &[[u32; 33]; 33], s: usize) -> [u32; 33]
    requires { (s ≤ 32) × Small square.now }
    ensures { result ≡ list_of (closure_of (square_envelope square.now) s) 33 }
{
    let mut row = [0; 33];
    // By index: each entry is worked from those before it.
    for t in s + 1..33 {
        row[t] = least_sum(square, &row, s, t - 1, t);
    }
    row
}

// The closure of a square.
pub(crate) fn closed(square: &[[u32; 33]; 33]) -> [[u32; 33]; 33]
    requires { Small square.now }
    ensures { result ≡ closed_square square.now }
{
    let mut made = [[0; 33]; 33];
    for s in 0..33 {
        made[s] = closed_row(square, s);
    }
    made
}
