// What may have departed by a later slot, from the departed totals of the past.
ghost use Rattle.std.specs.Prelude.{◌≡◌, ℕ, ◌+◌, ◌≤◌, ◌<◌, length, get_or};
ghost use Rattle.numbers.specs.LeastSum.{least_with};
ghost use Rattle.trace.specs.RunWork.{forecast_from};

// The most that may have departed by the next slot, and by the slot that the delay limit asks for, in 32 bits, which a trace stays within.
#[derive(Clone, Copy)]
pub struct Forecasts {
    pub soon: u32,
    pub late: u32,
}

// No sum of the past with a window is above it.
const NO_SUM: u32 = u32::MAX;

// The least sum of the past with the windows.
#[tactic(auto, using(numbers::proofs::LeastSum::least_with_more), unfolding(numbers::specs::LeastSum::least_with))]
fn least_sum(past: &[u32], windows: &[u32], n: usize) -> u32
    requires { (n ≤ length past.now) × (n ≤ length windows.now) × ((i : ℕ) → i < n → get_or past.now i 0 + get_or windows.now i 0 < 4294967296) }
    ensures { result ≡ least_with 4294967295 past.now windows.now n }
{
    let mut least = NO_SUM;
    for i in 0..n {
        least = least.min(past[i] + windows[i]);
    }
    least
}

// The least sum of the past with the near windows, and with the far ones: one walk over the past, which is read once for both.
#[tactic(auto, using(numbers::proofs::LeastSum::least_with_more), unfolding(numbers::specs::LeastSum::least_with))]
fn least_sums(past: &[u32], near: &[u32], far: &[u32], n: usize) -> Forecasts
    requires { (n ≤ length past.now) × (n ≤ length near.now) × (n ≤ length far.now) × ((i : ℕ) → i < n → get_or past.now i 0 + get_or near.now i 0 < 4294967296) × ((i : ℕ) → i < n → get_or past.now i 0 + get_or far.now i 0 < 4294967296) }
    ensures { (result.soon ≡ least_with 4294967295 past.now near.now n) × (result.late ≡ least_with 4294967295 past.now far.now n) }
{
    let mut soon = NO_SUM;
    let mut late = NO_SUM;
    for i in 0..n {
        soon = soon.min(past[i] + near[i]);
        late = late.min(past[i] + far[i]);
    }
    Forecasts { soon, late }
}

// The forecast of the next slot alone, which is the late one too where that looks no further.
fn next_alone(newest: u32, older: &[u32], windows: &[u32], last: usize) -> Forecasts
    requires { (1 ≤ last) × (last ≤ 64) × (63 ≤ length older.now) × (length windows.now ≡ 129) × (newest ≤ 4096000000) × ((k : ℕ) → get_or older.now k 0 ≤ 4096000000) × ((k : ℕ) → get_or windows.now k 0 ≤ 128000000) }
    ensures { (result.soon ≡ forecast_from windows.now older.now last newest 0) × (result.late ≡ forecast_from windows.now older.now last newest 0) }
{
    let least = least_sum(older, &windows[2..], last - 1);
    let soon = least.min(newest + windows[1]);
    Forecasts { soon, late: soon }
}

// Both forecasts, from the departed totals: the newest, and the older ones newest first. The newest comes last, so that all else can
// be worked before it is known.
pub(crate) fn forecast(
    newest: u32,
    older: &[u32],
    windows: &[u32],
    last: usize,
    ahead: usize,
) -> Forecasts
    requires { (1 ≤ last) × (last ≤ 64) × (ahead ≤ 64) × (63 ≤ length older.now) × (length windows.now ≡ 129) × (newest ≤ 4096000000) × ((k : ℕ) → get_or older.now k 0 ≤ 4096000000) × ((k : ℕ) → get_or windows.now k 0 ≤ 128000000) }
    ensures { (result.soon ≡ forecast_from windows.now older.now last newest 0) × (result.late ≡ forecast_from windows.now older.now last newest ahead) }
{
    if ahead == 0 {
        return next_alone(newest, older, windows, last);
    }
    let next = ahead + 1;
    let far = ahead + 2;
    let least = least_sums(older, &windows[2..], &windows[far..], last - 1);
    Forecasts {
        soon: least.soon.min(newest + windows[1]),
        late: least.late.min(newest + windows[next]),
    }
}
