// From a stream file's bytes to the bytes of the printed text.
ghost use Rattle.std.specs.Prelude.{◌≡◌, ◌≤◌, length};
ghost use Rattle.stream.specs.Refusals.{file_refusal};
ghost use Rattle.calculus.specs.Regulators.Rows.{admitted_row, dropped_row, departed_row};
ghost use Rattle.refusals.specs.Limits.{delay_limit, buffer_limit};
ghost use Rattle.trace.specs.RunWork.{Workable};
ghost use Rattle.text.specs.Printed.{Printed};
ghost use Rattle.loss_table.specs.Text.{run_text, printed_text, longest_text, printed_in};

use numbers::count::{Packets, Slots};
use numbers::size::{LAST_WINDOW, LONGEST_TRACE};
use refusals::limits::both_refusal;
use stream::judge::file_refusal;
use stream::read::{arrivals_of, buffer_of, delay_of, entries_of, slots_of, table_of};
use text::print::{HEADING_AND_TOTALS_ROOM, LINE_ROOM, put_refused, put_table};
use trace::run::{run, run_alone};

// Room for the longest text.
pub const ROOM: usize = LINE_ROOM * LONGEST_TRACE + HEADING_AND_TOTALS_ROOM;

// Fills the rows of what an accepted file holds. A file's order has no 23: where both limits are none, the rows are those of the
// regulator alone, whose set-up `run` refuses.
fn fill_rows(
    table: &[u32],
    delay: Slots,
    buffer: Packets,
    arrived: &[u32],
    admitted: &mut [u32],
    dropped: &mut [u32],
    departed: &mut [u32],
)
    requires { Workable table.now delay.0 buffer.0 arrived.now (length admitted.old) (length dropped.old) (length departed.old) }
    ensures { (admitted.new ≡ admitted_row table.now (delay_limit delay.0) (buffer_limit buffer.0) arrived.now) × (dropped.new ≡ dropped_row table.now (delay_limit delay.0) (buffer_limit buffer.0) arrived.now) × (departed.new ≡ departed_row table.now (delay_limit delay.0) (buffer_limit buffer.0) arrived.now) }
{
    if both_refusal(delay, buffer).is_err() {
        run_alone(table, arrived, admitted, dropped, departed).unwrap();
    } else {
        run(table, delay, buffer, arrived, admitted, dropped, departed).unwrap();
    }
}

// Runs a trace and prints its rows.
fn put_run(table: &[u32], delay: Slots, buffer: Packets, arrived: &[u32], out: &mut [u8]) -> usize
    requires { Workable table.now delay.0 buffer.0 arrived.now (length arrived.now) (length arrived.now) (length arrived.now) × (longest_text ≤ length out.old) }
    ensures { Printed out.old (run_text table.now delay.0 buffer.0 arrived.now) out.new result }
{
    let slots = arrived.len();
    let mut ins = [0; LONGEST_TRACE];
    let mut drops = [0; LONGEST_TRACE];
    let mut outs = [0; LONGEST_TRACE];
    let admitted = &mut ins[..slots];
    let dropped = &mut drops[..slots];
    let departed = &mut outs[..slots];
    fill_rows(table, delay, buffer, arrived, admitted, dropped, departed);
    put_table(arrived, admitted, dropped, departed, out)
}

// Reads an accepted file and prints the rows of what it holds.
fn put_accepted(file: &[u8], out: &mut [u8]) -> usize
    requires { (file_refusal file.now ≡ 0) × (longest_text ≤ length out.old) }
    ensures { Printed out.old (printed_text file.now) out.new result }
{
    let mut entries = [0; LAST_WINDOW + 1];
    let mut counts = [0; LONGEST_TRACE];
    let table = &mut entries[..entries_of(file)];
    table_of(file, table);
    let arrived = &mut counts[..slots_of(file).0 as usize];
    arrivals_of(file, arrived);
    put_run(table, delay_of(file), buffer_of(file), arrived, out)
}

// Puts the text for a file's bytes, whatever they are, at the start of a lent slice, and answers its length. Without room for the
// longest text, nothing is written.
pub fn loss_text(file: &[u8], out: &mut [u8]) -> usize
    ensures { Printed out.old (printed_in (length out.old) file.now) out.new result }
{
    if out.len() < ROOM {
        return 0;
    }
    match file_refusal(file) {
        Ok(()) => put_accepted(file, out),
        Err(refusal) => put_refused(refusal.number(), out),
    }
}
