// The least sums of a row with others while the row moves on by a place: in one walk, so that what is read for a sum need not be read
// again to be moved. The first place is kept for a total that comes of the sums, and is 0 meanwhile.
ghost use Rattle.std.specs.Prelude.{◌≡◌, ℕ, ◌+◌, ◌<◌, ◌≤◌, List, length, slice_index, slice_set};
ghost use Rattle.numbers.specs.LeastSum.{least_sum};
ghost use Rattle.least_sum.specs.Common.{common, common_to_three};
ghost use Rattle.least_sum.specs.Pushed.{pushed, Moving};

use crate::least::{four, sum_at};
use numbers::number::TOP;
use std::mem::replace;

// The least sums of a row with two others.
#[derive(Clone, Copy)]
pub struct LeastPair {
    pub first: u64,
    pub second: u64,
}

// Moves four places more, of whatever row is moving.
fn four_moved(row: &mut [u64], i: usize, before: u64) -> u64
    requires { i + 4 ≤ length row.old }
    ensures { (given : List ℕ) → Moving given i row.old before → Moving given (i + 4) row.new result }
{
    let second = replace(&mut row[i], before);
    let third = replace(&mut row[i + 1], second);
    let fourth = replace(&mut row[i + 2], third);
    replace(&mut row[i + 3], fourth)
}

// The least of the sums at the first `count` places, as far as both rows go; the row moves on at these places.
pub fn least_moved(row: &mut [u64], b: &[u32], count: usize) -> u64
    ensures { (result ≡ least_sum row.old b.now (common count row.old b.now)) × (row.new ≡ pushed (common count row.old b.now) 0 row.old) }
{
    let n = count.min(row.len().min(b.len()));
    let mut least = TOP;
    let mut before: u64 = 0;
    // The places that turns of four leave over come first. From `n % 4` the compiler sees that they are three at most.
    for i in 0..n % 4 {
        least = least.min(sum_at(row, b, i));
        before = replace(&mut row[i], before);
    }
    // By hand, since `step_by` takes some 5 % more instructions in a live slot.
    let mut i = n % 4;
    while i < n {
        least = least.min(four(row, b, i));
        before = four_moved(row, i, before);
        i += 4;
    }
    least
}

// The same with two other rows, over the places that all three have.
pub fn pair_moved(row: &mut [u64], b: &[u32], c: &[u32], count: usize) -> LeastPair
    ensures { (result.first ≡ least_sum row.old b.now (common_to_three count row.old b.now c.now)) × (result.second ≡ least_sum row.old c.now (common_to_three count row.old b.now c.now)) × (row.new ≡ pushed (common_to_three count row.old b.now c.now) 0 row.old) }
{
    let n = count.min(row.len()).min(b.len().min(c.len()));
    let mut first = TOP;
    let mut second = TOP;
    let mut before: u64 = 0;
    // The places that turns of four leave over come first. From `n % 4` the compiler sees that they are three at most.
    for i in 0..n % 4 {
        first = first.min(sum_at(row, b, i));
        second = second.min(sum_at(row, c, i));
        before = replace(&mut row[i], before);
    }
    // By hand, since `step_by` takes some 5 % more instructions in a live slot.
    let mut i = n % 4;
    while i < n {
        first = first.min(four(row, b, i));
        second = second.min(four(row, c, i));
        before = four_moved(row, i, before);
        i += 4;
    }
    LeastPair { first, second }
}
