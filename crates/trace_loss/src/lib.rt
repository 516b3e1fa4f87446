// What a whole trace loses by its last slot: the sum of what its run drops, in lists that are not kept.
#![tactic(auto)]

ghost use Rattle.std.specs.Prelude.{◌≡◌, length};
ghost use Rattle.calculus.specs.Regulators.Rows.{lost_by};
ghost use Rattle.refusals.specs.Limits.{delay_limit, buffer_limit};
ghost use Rattle.refusals.specs.WholeTrace.{run_refusal};
ghost use Rattle.trace_loss.specs.TraceLoss.{trace_loss};

use numbers::count::{Packets, Slots};
use numbers::size::LONGEST_TRACE;
use refusals::whole_trace::run_refusal;
use trace::run::run;

// What the regulator loses of a trace: the sum of what its run drops.
fn loss_in(
    table: &[u32],
    delay: Slots,
    buffer: Packets,
    arrivals: &[u32],
    admitted: &mut [u32],
    dropped: &mut [u32],
    departed: &mut [u32],
) -> u32
    requires { run_refusal table.now delay.0 buffer.0 arrivals.now (length admitted.old) (length dropped.old) (length departed.old) ≡ 0 }
    ensures { result ≡ lost_by table.now (delay_limit delay.0) (buffer_limit buffer.0) arrivals.now (length arrivals.now) }
{
    run(table, delay, buffer, arrivals, admitted, dropped, departed).unwrap();
    dropped.iter().sum()
}

// What the regulator loses of a trace by its last slot; 0 where the run refuses it.
pub fn loss(table: &[u32], delay: Slots, buffer: Packets, arrivals: &[u32]) -> u32
    ensures { result ≡ trace_loss table.now delay.0 buffer.0 arrivals.now }
{
    let slots = arrivals.len();
    if run_refusal(table, delay, buffer, arrivals, slots, slots, slots).is_err() {
        return 0;
    }
    let mut admitted = [0; LONGEST_TRACE];
    let mut dropped = [0; LONGEST_TRACE];
    let mut departed = [0; LONGEST_TRACE];
    loss_in(
        table,
        delay,
        buffer,
        arrivals,
        &mut admitted[..slots],
        &mut dropped[..slots],
        &mut departed[..slots],
    )
}
