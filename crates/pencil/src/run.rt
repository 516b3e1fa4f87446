// The pencil's run: both totals of each slot, and the counts between them.
ghost use Rattle.std.specs.Prelude.{◌≡◌, length};
ghost use Rattle.calculus.specs.Numbers.Limit.{delay_limit, buffer_limit};
ghost use Rattle.orders.specs.Answered.{verdict_given};
ghost use Rattle.pencil.specs.PencilWork.{Working, Rows};
ghost use Rattle.pencil.specs.PencilRun.{PencilRan};

use crate::judge::pencil_refusal;
use crate::totals::Work;
use envelope::envelope::{LAST_NEAR, near};
use numbers::count::{Packets, Slots};
use orders::refusal::Refusal;
use settings::table::take;

// Lists what each slot admits, drops and lets go.
fn list(work: &Work, admitted: &mut [u32], dropped: &mut [u32], departed: &mut [u32])
    requires { Working work.now.table.now work.now.near.now work.now.delay work.now.buffer work.now.arrivals.now (length work.now.arrivals.now) × (length admitted.old ≡ length work.now.arrivals.now) × (length dropped.old ≡ length work.now.arrivals.now) × (length departed.old ≡ length work.now.arrivals.now) }
    ensures { Rows work.now.table.now (delay_limit work.now.delay) (buffer_limit work.now.buffer) work.now.arrivals.now admitted.new dropped.new departed.new }
{
    let mut x: u32 = 0;
    let mut y: u32 = 0;
    for t in 0..work.arrivals.len() {
        let n = work.arrivals[t];
        let total = work.admitted_total(t + 1);
        let gone = work.departed_total(t + 1);
        let taken = total - x;
        admitted[t] = taken;
        dropped[t] = n - taken;
        departed[t] = gone - y;
        x = total;
        y = gone;
    }
}

// Fills the whole-trace run's three lists, or answers a refusal and writes to none of them.
pub fn pencil_run(
    table: &[u32],
    delay: Slots,
    buffer: Packets,
    arrivals: &[u32],
    admitted: &mut [u32],
    dropped: &mut [u32],
    departed: &mut [u32],
) -> Result<(), Refusal>
    ensures { PencilRan table.now delay.0 buffer.0 arrivals.now admitted.old dropped.old departed.old (verdict_given result) admitted.new dropped.new departed.new }
{
    pencil_refusal(
        table,
        delay,
        buffer,
        arrivals,
        admitted.len(),
        dropped.len(),
        departed.len(),
    )?;
    let envelope = take(table).unwrap();
    let windows = near(envelope, LAST_NEAR).packets;
    let work = Work {
        table,
        near: &windows,
        delay: delay.0,
        buffer: buffer.0 as u32,
        arrivals,
    };
    list(&work, admitted, dropped, departed);
    Ok(())
}
