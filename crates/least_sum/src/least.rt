// The least sum of two rows, place by place, on 64 bits: the inner loop of a forecast.
// Sums wrap at 64 bits, which those of a regulator that was set up do not reach; the largest number stands for infinity.
ghost use Rattle.std.specs.Prelude.{◌≡◌, ◌+◌, ◌<◌, ◌≤◌, length};
ghost use Rattle.numbers.specs.LeastSum.{sum_at, four_sums, least_sum, least_sum_from};
ghost use Rattle.least_sum.specs.Common.{common};

use numbers::number::TOP;
use std::num::wrapping_add_u64;

#[tactic(auto, unfolding(numbers::specs::LeastSum::sum_at))]
pub(crate) fn sum_at(a: &[u64], b: &[u32], i: usize) -> u64
    requires { (i < length a.now) × (i < length b.now) }
    ensures { result ≡ sum_at a.now b.now i }
{
    wrapping_add_u64(a[i], u64::from(b[i]))
}

// The least of the four sums from place i on. As a tree: no sum waits for the one before it.
#[tactic(auto, unfolding(numbers::specs::LeastSum::four_sums))]
pub(crate) fn four(a: &[u64], b: &[u32], i: usize) -> u64
    requires { (i + 4 ≤ length a.now) × (i + 4 ≤ length b.now) }
    ensures { result ≡ four_sums a.now b.now i }
{
    let first = sum_at(a, b, i).min(sum_at(a, b, i + 1));
    let second = sum_at(a, b, i + 2).min(sum_at(a, b, i + 3));
    first.min(second)
}

// The least of the sums at the first `count` places, as far as both rows go.
#[tactic(auto, using(numbers::proofs::LeastSum::least_sum_more, numbers::proofs::LeastSum::least_sum_four), unfolding(numbers::specs::LeastSum::least_sum))]
pub fn least_sum(a: &[u64], b: &[u32], count: usize) -> u64
    ensures { result ≡ least_sum a.now b.now (common count a.now b.now) }
{
    let n = count.min(a.len().min(b.len()));
    let whole = n - n % 4;
    let mut least = TOP;
    // By hand, since `step_by` takes some 5 % more instructions in a live slot.
    let mut i: usize = 0;
    while i < whole {
        least = least.min(four(a, b, i));
        i += 4;
    }
    // From `n % 4` the compiler sees that these places are three at most.
    for rest in 0..n % 4 {
        least = least.min(sum_at(a, b, whole + rest));
    }
    least
}

// The same from place `p` of the one row and place `q` of the other on.
#[tactic(auto, using(numbers::proofs::LeastSum::least_sum_none, numbers::proofs::LeastSum::least_sum_from_parts), unfolding(numbers::specs::LeastSum::least_sum_from))]
pub fn least_sum_from(a: &[u64], p: usize, b: &[u32], q: usize, count: usize) -> u64
    ensures { result ≡ least_sum_from a.now p b.now q count }
{
    if a.len() < p || b.len() < q {
        return TOP;
    }
    least_sum(&a[p..], &b[q..], count)
}
