// The tables of a path's stages.
ghost use Rattle.std.specs.Prelude.{◌≡◌, [], ◌∷◌, ◌<◌, get_or};

// The four tables that are lent; those beyond the number of stages are not looked at.
#[derive(Clone, Copy)]
pub(crate) struct Tables<'a> {
    pub(crate) first: &'a [u32],
    pub(crate) second: &'a [u32],
    pub(crate) third: &'a [u32],
    pub(crate) fourth: &'a [u32],
}

impl<'a> Tables<'a> {
    // The table of one stage, counted from 0.
    pub(crate) fn of_stage(self, stage: usize) -> &'a [u32]
        requires { stage < 4 }
        ensures { result.now ≡ get_or (self.entry.first.now ∷ self.entry.second.now ∷ self.entry.third.now ∷ self.entry.fourth.now ∷ []) stage [] }
    {
        match stage {
            0 => self.first,
            1 => self.second,
            2 => self.third,
            _ => self.fourth,
        }
    }
}
