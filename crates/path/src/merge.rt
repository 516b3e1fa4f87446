// One table out of the stages' tables: at each window the least entry of those that reach it. Its closure is that of the
// pointwise least of the closed envelopes.
ghost use Rattle.std.specs.Prelude.{◌≡◌, ℕ, ◌≤◌, ◌<◌, length, get_or, take};
ghost use Rattle.path_calculus.specs.Merged.{merged};
ghost use Rattle.path.specs.Refusals.{tables_of, tables_refusal};
ghost use Rattle.path.specs.PathWork.{no_entry, LoweredBy};

use crate::tables::Tables;

// Stands for no entry: above those of every table.
pub(crate) const NO_ENTRY: u32 = 4_294_967_295;

// Each place of the room becomes the smaller of itself and the table's entry there. Told and answered is how many entries
// the room has: memory is fixed, so that no Vec can say it.
fn lower(table: &[u32], entries: usize, room: &mut [u32]) -> usize
    requires { (length table.now ≤ length room.old) × ((k : ℕ) → get_or room.old k 0 ≤ no_entry) }
    ensures { LoweredBy table.now entries room.old result room.new }
{
    for (k, entry) in table.iter().enumerate() {
        room[k] = room[k].min(*entry);
    }
    entries.max(table.len())
}

// The merged table of the stages, in a room without entries; answered is how many entries it has.
pub(crate) fn merged_table(stages: usize, tables: Tables<'_>, room: &mut [u32]) -> usize
    requires { (stages ≤ 4) × (tables_refusal (tables_of stages tables.first.now tables.second.now tables.third.now tables.fourth.now) ≡ 0) × (length room.old ≡ 65) × ((k : ℕ) → k < 65 → get_or room.old k 0 ≡ no_entry) }
    ensures { (result ≤ 65) × (length room.new ≡ 65) × (take result room.new ≡ merged (tables_of stages tables.entry.first.now tables.entry.second.now tables.entry.third.now tables.entry.fourth.now)) }
{
    let mut entries = 0;
    for stage in 0..stages {
        entries = lower(tables.of_stage(stage), entries, room);
    }
    entries
}
