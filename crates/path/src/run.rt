// The path's whole-trace run: the entrance and the last stage are one run with the merged table, and the stages before the
// last follow one another.
ghost use Rattle.std.specs.Prelude.{◌≡◌, ◌≤◌, length};
ghost use Rattle.path_calculus.specs.Merged.{merged};
ghost use Rattle.orders.specs.Answered.{verdict_given};
ghost use Rattle.refusals.specs.Limits.{delay_limit, buffer_limit};
ghost use Rattle.refusals.specs.WholeTrace.{run_refusal};
ghost use Rattle.path.specs.Refusals.{tables_of, tables_refusal, path_refusal};
ghost use Rattle.path.specs.PathRun.{PathRan};
ghost use Rattle.path.specs.PathWork.{RowsOf, PathRows};

use crate::judge::path_refusal;
use crate::merge::{NO_ENTRY, merged_table};
use crate::stage::inner_stages;
use crate::tables::Tables;
use numbers::count::{Packets, Slots};
use numbers::size::LAST_WINDOW;
use orders::refusal::Refusal;
use trace::run::run;

// The entrance and the last stage at once: one run with the merged table.
fn enter(
    stages: usize,
    tables: Tables<'_>,
    delay: Slots,
    buffer: Packets,
    arrivals: &[u32],
    admitted: &mut [u32],
    dropped: &mut [u32],
    departed: &mut [u32],
)
    requires { (stages ≤ 4) × (tables_refusal (tables_of stages tables.first.now tables.second.now tables.third.now tables.fourth.now) ≡ 0) × (run_refusal (merged (tables_of stages tables.first.now tables.second.now tables.third.now tables.fourth.now)) delay.0 buffer.0 arrivals.now (length admitted.old) (length dropped.old) (length departed.old) ≡ 0) }
    ensures { RowsOf (merged (tables_of stages tables.entry.first.now tables.entry.second.now tables.entry.third.now tables.entry.fourth.now)) (delay_limit delay.0) (buffer_limit buffer.0) arrivals.now admitted.new dropped.new departed.new }
{
    // A room without entries, for a table of any length.
    let mut room = [NO_ENTRY; LAST_WINDOW + 1];
    let entries = merged_table(stages, tables, &mut room);
    run(
        &room[..entries],
        delay,
        buffer,
        arrivals,
        admitted,
        dropped,
        departed,
    )
    .unwrap();
}

// Works the rows of an accepted path.
fn work(
    stages: usize,
    tables: Tables<'_>,
    delay: Slots,
    buffer: Packets,
    arrivals: &[u32],
    admitted: &mut [u32],
    dropped: &mut [u32],
    departed: &mut [u32],
)
    requires { path_refusal stages (tables_of stages tables.first.now tables.second.now tables.third.now tables.fourth.now) delay.0 buffer.0 arrivals.now (length admitted.old) (length dropped.old) (length departed.old) ≡ 0 }
    ensures { PathRows (tables_of stages tables.entry.first.now tables.entry.second.now tables.entry.third.now tables.entry.fourth.now) (delay_limit delay.0) (buffer_limit buffer.0) arrivals.now admitted.new dropped.new departed.new }
{
    let inner = stages - 1;
    let last = inner * arrivals.len();
    enter(
        stages,
        tables,
        delay,
        buffer,
        arrivals,
        admitted,
        dropped,
        &mut departed[last..],
    );
    inner_stages(inner, tables, admitted, departed);
}

// Runs a whole trace through a path: the three lists are filled, or it is refused and none of them is written.
// `departed` holds each stage's departures in turn, stage after stage.
pub fn path_run(
    stages: u32,
    first: &[u32],
    second: &[u32],
    third: &[u32],
    fourth: &[u32],
    delay: Slots,
    buffer: Packets,
    arrivals: &[u32],
    admitted: &mut [u32],
    dropped: &mut [u32],
    departed: &mut [u32],
) -> Result<(), Refusal>
    ensures { PathRan stages (tables_of stages first.now second.now third.now fourth.now) delay.0 buffer.0 arrivals.now admitted.old dropped.old departed.old (verdict_given result) admitted.new dropped.new departed.new }
{
    path_refusal(
        stages,
        first,
        second,
        third,
        fourth,
        delay,
        buffer,
        arrivals,
        admitted.len(),
        dropped.len(),
        departed.len(),
    )?;
    let tables = Tables {
        first,
        second,
        third,
        fourth,
    };
    work(
        stages as usize,
        tables,
        delay,
        buffer,
        arrivals,
        admitted,
        dropped,
        departed,
    );
    Ok(())
}
