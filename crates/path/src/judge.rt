// What is refused of a path.
ghost use Rattle.std.specs.Prelude.{◌≡◌, ◌*◌, ◌≤◌};
ghost use Rattle.orders.specs.Answered.{number_given};
ghost use Rattle.orders.specs.Refusal.{◌or_else◌};
ghost use Rattle.refusals.specs.Lengths.{lists_refusal};
ghost use Rattle.path.specs.Refusals.{stages_refusal, tables_of, tables_refusal, path_refusal};

use crate::tables::Tables;
use numbers::count::{Packets, Slots};
use orders::refusal::Refusal;
use refusals::lengths::{counts_refusal, length_refusal, list_refusal};
use refusals::limits::limits_refusal;
use refusals::table::table_refusal;

// The most stages of a path.
pub const MOST_STAGES: u32 = 4;

// 17: a number of stages outside 1 to 4.
pub fn stages_refusal(stages: u32) -> Result<(), Refusal>
    ensures { number_given result ≡ stages_refusal stages }
{
    if stages < 1 || stages > MOST_STAGES {
        Err(Refusal::StageCount)
    } else {
        Ok(())
    }
}

// The tables from the first on; those beyond the number of stages are not looked at.
fn tables_refusal(stages: u32, tables: Tables<'_>) -> Result<(), Refusal>
    requires { stages ≤ 4 }
    ensures { number_given result ≡ tables_refusal (tables_of stages tables.entry.first.now tables.entry.second.now tables.entry.third.now tables.entry.fourth.now) }
{
    for stage in 0..stages as usize {
        table_refusal(tables.of_stage(stage))?;
    }
    Ok(())
}

// 11, for each of the three lists.
#[tactic(auto, using(orders::proofs::Given::refused_first, orders::proofs::Given::passed_first))]
fn lists_refusal(
    stages: u32,
    slots: usize,
    admitted: usize,
    dropped: usize,
    departed: usize,
) -> Result<(), Refusal>
    requires { (stages ≤ 4) × (slots ≤ 4096) }
    ensures { number_given result ≡ (lists_refusal slots admitted or_else lists_refusal slots dropped or_else lists_refusal (stages * slots) departed) }
{
    let places = stages as usize * slots;
    list_refusal(slots, admitted)?;
    list_refusal(slots, dropped)?;
    list_refusal(places, departed)
}

// 17, the tables, 6, 7, 23, 10, 11, 8.
#[tactic(auto, unfolding(crate::specs::Refusals::path_refusal), using(orders::proofs::Given::refused_first, orders::proofs::Given::passed_first))]
pub fn path_refusal(
    stages: u32,
    first: &[u32],
    second: &[u32],
    third: &[u32],
    fourth: &[u32],
    delay: Slots,
    buffer: Packets,
    arrivals: &[u32],
    admitted: usize,
    dropped: usize,
    departed: usize,
) -> Result<(), Refusal>
    ensures { number_given result ≡ path_refusal stages (tables_of stages first.now second.now third.now fourth.now) delay.0 buffer.0 arrivals.now admitted dropped departed }
{
    stages_refusal(stages)?;
    let tables = Tables {
        first,
        second,
        third,
        fourth,
    };
    tables_refusal(stages, tables)?;
    limits_refusal(delay, buffer)?;
    let slots = arrivals.len();
    length_refusal(slots)?;
    lists_refusal(stages, slots, admitted, dropped, departed)?;
    counts_refusal(arrivals)
}
