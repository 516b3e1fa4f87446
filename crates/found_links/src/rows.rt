// The rows that links are found from.
ghost use Rattle.std.specs.Prelude.{List, ◌≡◌, ℕ, ◌≤◌, length};
ghost use Rattle.calculus.specs.Numbers.Limit.{delay_limit, buffer_limit};
ghost use Rattle.calculus.specs.Regulators.Rows.{admitted_row, dropped_row, departed_row};
ghost use Rattle.refusals.specs.WholeTrace.{run_refusal};
ghost use Rattle.found_links.specs.OurRows.{OurRows};

use crate::after::go_on;
use crate::starts::start_row;
use chain::rows::total_row;

// Totals admitted, lost and departed, and the first slots of departed links, by the slots 0 to `reach`; and the two limits that they keep.
#[derive(Drop)]
pub(crate) struct Rows {
    pub(crate) delay: u32,
    pub(crate) buffer: u32,
    pub(crate) reach: usize,
    pub(crate) admitted: [u32; 4161],
    pub(crate) lost: [u32; 4161],
    pub(crate) departed: [u32; 4161],
    pub(crate) starts: [u32; 4161],
}

impl Rows {
    // Blank ones, for a run under these limits, up to slot `reach`.
    pub(crate) fn blank(delay: u32, buffer: u32, reach: usize) -> Rows
        ensures { (result.delay ≡ delay) × (result.buffer ≡ buffer) × (result.reach ≡ reach) }
    {
        Rows {
            delay,
            buffer,
            reach,
            admitted: [0; 4161],
            lost: [0; 4161],
            departed: [0; 4161],
            starts: [0; 4161],
        }
    }

    // Reads them off a run's lists: packets admitted, dropped and departed in each slot. They are filled in place: rows given back would be copied.
    pub(crate) fn read_run(&mut self, table: &[u32], ins: &[u32], drops: &[u32], outs: &[u32])
        requires { (length ins.now ≤ 4096) × (self.old.reach ≤ 4160) }
        ensures given { (self.new.delay ≡ self.old.delay) × (self.new.buffer ≡ self.old.buffer) × (self.new.reach ≡ self.old.reach) }
        ensures ours { (d q : ℕ) (trace : List ℕ) (one two three : ℕ) → run_refusal table.now d q trace one two three ≡ 0 → ins.now ≡ admitted_row table.now (delay_limit d) (buffer_limit q) trace → drops.now ≡ dropped_row table.now (delay_limit d) (buffer_limit q) trace → outs.now ≡ departed_row table.now (delay_limit d) (buffer_limit q) trace → OurRows table.now d q trace self.old.reach self.new.admitted self.new.lost self.new.departed self.new.starts }
    {
        total_row(ins, &mut self.admitted);
        total_row(drops, &mut self.lost);
        total_row(outs, &mut self.departed);
        go_on(
            table,
            ins.len(),
            self.reach,
            &mut self.admitted,
            &mut self.lost,
            &mut self.departed,
        );
        start_row(table, &self.departed, self.reach, &mut self.starts);
    }
}
