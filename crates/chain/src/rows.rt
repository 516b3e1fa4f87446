// The rows, in 32 bits: f at the windows 0 to 4,160, window 0 last, and totals by the slots 0 to 4,160: the longest trace and the
// longest delay limit.
ghost use Rattle.std.specs.Prelude.{◌≡◌, min};
ghost use Rattle.chain.specs.Rows.{Filled, summed_over};

use envelope::table::Envelope;
use numbers::count::Slots;
use numbers::size::LAST_ASKED;
use question::many_windows::windows;
use settings::table::take;

// f at the windows 0 to `last` of the table that is taken, and no further than the row. A refused table is none.
pub fn window_row(table: &[u32], last: usize, row: &mut [u32; 4161])
    ensures { Filled table.now row.old row.new (min last 4160) }
{
    let none = Envelope {
        last: Slots(0),
        table: [0; 65],
    };
    let envelope = take(table).unwrap_or(none);
    let from = LAST_ASKED - last.min(LAST_ASKED);
    let mut pieces = [0; 4161];
    windows(envelope, &mut row[from..], &mut pieces[from..]).unwrap();
}

// The running totals of a list of counts, 0 first. They wrap at 32 bits; those of a trace stay below.
pub fn total_row(counts: &[u32], totals: &mut [u32; 4161])
    ensures { totals.new ≡ summed_over counts.now totals.old }
{
    let last = counts.len().min(LAST_ASKED);
    let mut sum: u32 = 0;
    totals[0] = 0;
    for t in 0..last {
        sum = sum.wrapping_add(counts[t]);
        totals[t + 1] = sum;
    }
}
