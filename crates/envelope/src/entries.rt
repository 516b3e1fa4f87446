// The entries that count of a table, and the last window L that they reach.
ghost use Rattle.std.specs.Prelude.{ℕ, ◌≤◌, ◌<◌, length, get_or};

// Entries for the windows 0 to L at least, each at most 1,000,000.
#[derive(Clone, Copy)]
pub(crate) struct Entries<'a> {
    pub table: &'a [u32],
    pub last: usize,
    ghost some: { 1 ≤ last },
    ghost few: { last ≤ 64 },
    ghost reached: { last < length table.now },
    ghost small: { (k : ℕ) → get_or table.now k 0 ≤ 1000000 },
}
