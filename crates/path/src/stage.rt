// The stages: each is a regulator without limits, fed with what leaves the stage before it.
ghost use Rattle.std.specs.Prelude.{◌≡◌, [], ◌∷◌, ◌++◌, ◌*◌, length, drop};
ghost use Rattle.calculus.specs.Numbers.Limit.{none};
ghost use Rattle.calculus.specs.Regulators.Rows.{departed_row};
ghost use Rattle.path.specs.PathWork.{rows_after, Passing, Feeding};

use crate::tables::Tables;
use numbers::size::LONGEST_TRACE;
use trace::run::run_alone;

// What a stage lets go, slot by slot, of the row before it. It admits all of that row and drops nothing, so that these two
// lists of its run are not looked at.
fn pass(table: &[u32], before: &[u32], departed: &mut [u32])
    requires { Passing table.now before.now (length departed.old) }
    ensures { departed.new ≡ departed_row table.now none none before.now }
{
    let mut admitted = [0; LONGEST_TRACE];
    let mut dropped = [0; LONGEST_TRACE];
    let slots = before.len();
    run_alone(
        table,
        before,
        &mut admitted[..slots],
        &mut dropped[..slots],
        departed,
    )
    .unwrap();
}

// Fills the parts of the stages before the last, and leaves the rest of the list as it is. What a stage lets go is left in
// `before`, where the next one finds it.
pub(crate) fn inner_stages(inner: usize, tables: Tables<'_>, admitted: &[u32], departed: &mut [u32])
    requires { Feeding inner (tables.first.now ∷ tables.second.now ∷ tables.third.now ∷ tables.fourth.now ∷ []) admitted.now (length departed.old) }
    ensures { departed.new ≡ rows_after (tables.entry.first.now ∷ tables.entry.second.now ∷ tables.entry.third.now ∷ tables.entry.fourth.now ∷ []) admitted.now inner ++ drop (inner * length admitted.now) departed.old }
{
    let mut room = [0; LONGEST_TRACE];
    let slots = admitted.len();
    let before = &mut room[..slots];
    before.copy_from_slice(admitted);
    for stage in 0..inner {
        let from = stage * slots;
        let part = &mut departed[from..from + slots];
        pass(tables.of_stage(stage), before, part);
        before.copy_from_slice(part);
    }
}
