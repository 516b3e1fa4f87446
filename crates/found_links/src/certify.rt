// The certificate of our own run.
ghost use Rattle.std.specs.Prelude.{cond, List, ◌≡◌, ℕ, ◌≤◌, eqb, length, get_or};
ghost use Rattle.calculus.specs.Numbers.Limit.{delay_limit, buffer_limit};
ghost use Rattle.calculus.specs.Regulators.Rows.{admitted_row, dropped_row, departed_row};
ghost use Rattle.certificate_calculus.specs.FoundLinks.{found_links};
ghost use Rattle.orders.specs.Answered.{number_given};
ghost use Rattle.refusals.specs.WholeTrace.{run_refusal};
ghost use Rattle.found_links.specs.Links.{Read};
ghost use Rattle.found_links.specs.Given.{Listed, our_links, Given};

use crate::rows::Rows;
use numbers::count::{Packets, Slots};
use orders::refusal::Refusal;
use trace::run::run;

// The earliest slot with the loss of slot t, where `same` is that of the slot before: losses do not fall.
fn same_loss(lost: &[u32; 4161], same: usize, t: usize) -> usize
    requires { (same ≤ 4096) × (t ≤ 4096) }
    ensures { result ≡ cond (eqb (get_or lost.now same 0) (get_or lost.now t 0)) same t }
{
    if lost[same] == lost[t] { same } else { t }
}

// Fills the lists with the links found slot after slot, 0 and 0 where there is none.
fn fill_links(rows: &Rows, from: &mut [u32], by: &mut [u32], gone: &mut [u32])
    requires { (length from.old ≤ 4096) × (length by.old ≡ length from.old) × (length gone.old ≡ length from.old) × (rows.now.reach ≡ length from.old) }
    ensures { (f a u v : ℕ → ℕ) → Read rows.now f a u v → Listed (found_links f (delay_limit rows.now.delay) (buffer_limit rows.now.buffer) a rows.now.reach u v) rows.now.reach from.new by.new gone.new }
{
    let mut same = 0;
    for t in 0..from.len() {
        let slot = t + 1;
        same = same_loss(&rows.lost, same, slot);
        (from[t], by[t]) = match rows.admitted_link(slot, same) {
            Some(link) => (link.from, link.by.number()),
            None => (0, 0),
        };
        gone[t] = rows.starts[slot];
    }
}

// Writes the links of a run over its rows: packets admitted, dropped and departed in each slot.
fn link_run(
    table: &[u32],
    delay: u32,
    buffer: u32,
    admitted: &mut [u32],
    dropped: &mut [u32],
    departed: &mut [u32],
)
    requires { (length admitted.old ≤ 4096) × (length dropped.old ≡ length admitted.old) × (length departed.old ≡ length admitted.old) }
    ensures { (trace : List ℕ) (one two three : ℕ) → run_refusal table.now delay buffer trace one two three ≡ 0 → admitted.old ≡ admitted_row table.now (delay_limit delay) (buffer_limit buffer) trace → dropped.old ≡ dropped_row table.now (delay_limit delay) (buffer_limit buffer) trace → departed.old ≡ departed_row table.now (delay_limit delay) (buffer_limit buffer) trace → Listed (our_links table.now delay buffer trace) (length trace) admitted.new dropped.new departed.new }
{
    let mut rows = Rows::blank(delay, buffer, admitted.len());
    rows.read_run(table, admitted, dropped, departed);
    fill_links(&rows, admitted, dropped, departed);
}

// Fills the lists with the links found for the run of a trace, whose rows they hold in between. A refused call writes none of them.
pub fn certify(
    table: &[u32],
    delay: Slots,
    buffer: Packets,
    arrivals: &[u32],
    admitted_from: &mut [u32],
    admitted_by: &mut [u32],
    departed_from: &mut [u32],
) -> Result<(), Refusal>
    ensures { Given table.now delay.0 buffer.0 arrivals.now admitted_from.old admitted_by.old departed_from.old (number_given result) admitted_from.new admitted_by.new departed_from.new }
{
    run(
        table,
        delay,
        buffer,
        arrivals,
        admitted_from,
        admitted_by,
        departed_from,
    )?;
    link_run(
        table,
        delay.0,
        buffer.0 as u32,
        admitted_from,
        admitted_by,
        departed_from,
    );
    Ok(())
}
