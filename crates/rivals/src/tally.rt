// Running totals of anyone's counts, on 64 bits, which 4,096 counts of 32 bits never leave.
ghost use Rattle.std.specs.Prelude.{◌≡◌, ◌≤◌, length, get_or};
ghost use Rattle.rivals.specs.Tallied.{Tallied};

// Place t has the sum of the slots 1 to t.
pub(crate) fn tally(counts: &[u32], totals: &mut [u64; 4097])
    requires { (length counts.now ≤ 4096) × (get_or totals.old 0 0 ≡ 0) }
    ensures { Tallied counts.now totals.new (length counts.now) }
{
    let mut sum: u64 = 0;
    for (t, count) in counts.iter().enumerate() {
        sum += u64::from(*count);
        totals[t + 1] = sum;
    }
}
