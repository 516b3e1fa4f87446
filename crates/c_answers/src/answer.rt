// What crosses the boundary: an enum cannot, so an answer is its number, 0 where nothing is refused, beside its values.
ghost use Rattle.std.specs.Prelude.{◌≡◌};
ghost use Rattle.chain.specs.CheckerAnswer.{checked_given};
ghost use Rattle.found_links.specs.FinderAnswer.{found_given};
ghost use Rattle.live_step.specs.Answer as live;
ghost use Rattle.preview.specs.Preview.{preview_given};
ghost use Rattle.question.specs.Question as asking;
ghost use Rattle.regulator.specs.Regulator.{set_up_given};
ghost use Rattle.c_answers.specs.Numbered.{made_of, row_of, preview_row_of, bound_of, chain_of, chain_verdict_of};

use live_step::record::SlotRecord;
use orders::refusal::Refusal;
use preview::next::Foreseen;
use question::question::WindowBound;
use regulator::regulator::{Regulator, no_regulator};

// A regulator, and 0; or a number, and the regulator that takes no slot.
#[repr(C)]
#[derive(Clone, Copy)]
pub struct MadeRegulator {
    pub number: u32,
    pub regulator: Regulator,
}

// A slot's record, and 0; or a number, and counts of 0.
#[repr(C)]
#[derive(Clone, Copy)]
pub struct SlotRow {
    pub number: u32,
    pub held_before: u64,
    pub admitted: u64,
    pub dropped: u64,
    pub departed: u64,
}

// A preview: the next slot's record and the headroom, and 0; or a number, and counts of 0.
#[repr(C)]
#[derive(Clone, Copy)]
pub struct PreviewRow {
    pub number: u32,
    pub held_before: u64,
    pub admitted: u64,
    pub dropped: u64,
    pub departed: u64,
    pub headroom: u64,
}

// f at a window and its first piece, and 0; or a number, and 0 for both.
#[repr(C)]
#[derive(Clone, Copy)]
pub struct Bound {
    pub number: u32,
    pub piece: u32,
    pub packets: u64,
}

// Where the counts of a stream file stand, in bytes from its start, and 0; or a number, and the empty part at its start.
#[repr(C)]
#[derive(Clone, Copy)]
pub struct Part {
    pub number: u32,
    pub from: u64,
    pub bytes: u64,
}

// A chain's number of places, and 0; or a number, and no places.
#[repr(C)]
#[derive(Clone, Copy)]
pub struct Chain {
    pub number: u32,
    pub places: u32,
}

// 1 for a sound chain and 0 for another, and 0; or a number, and 0.
#[repr(C)]
#[derive(Clone, Copy)]
pub struct ChainVerdict {
    pub number: u32,
    pub sound: u32,
}

impl From<Result<Regulator, Refusal>> for MadeRegulator {
    ghost from_gives = { λ answer given. given ≡ made_of (set_up_given answer) };

    fn from(answer: Result<Regulator, Refusal>) -> MadeRegulator {
        match answer {
            Ok(regulator) => MadeRegulator {
                number: 0,
                regulator,
            },
            Err(refusal) => MadeRegulator {
                number: refusal.number(),
                regulator: no_regulator(),
            },
        }
    }
}

impl From<Result<SlotRecord, Refusal>> for SlotRow {
    ghost from_gives = { λ answer given. given ≡ row_of (live.answer_given answer) };

    fn from(answer: Result<SlotRecord, Refusal>) -> SlotRow {
        match answer {
            Ok(counted) => SlotRow {
                number: 0,
                held_before: counted.held_before,
                admitted: counted.admitted,
                dropped: counted.dropped,
                departed: counted.departed,
            },
            Err(refused) => SlotRow {
                number: refused.number(),
                held_before: 0,
                admitted: 0,
                dropped: 0,
                departed: 0,
            },
        }
    }
}

impl From<Result<Foreseen, Refusal>> for PreviewRow {
    ghost from_gives = { λ answer given. given ≡ preview_row_of (preview_given answer) };

    fn from(answer: Result<Foreseen, Refusal>) -> PreviewRow {
        match answer {
            Ok(told) => PreviewRow {
                number: 0,
                held_before: told.slot.held_before,
                admitted: told.slot.admitted,
                dropped: told.slot.dropped,
                departed: told.slot.departed,
                headroom: told.headroom,
            },
            Err(refusal) => PreviewRow {
                number: refusal.number(),
                held_before: 0,
                admitted: 0,
                dropped: 0,
                departed: 0,
                headroom: 0,
            },
        }
    }
}

impl From<Result<WindowBound, Refusal>> for Bound {
    ghost from_gives = { λ answer given. given ≡ bound_of (asking.answer_given answer) };

    fn from(answer: Result<WindowBound, Refusal>) -> Bound {
        match answer {
            Ok(bound) => Bound {
                number: 0,
                piece: bound.piece.0,
                packets: bound.packets.0,
            },
            Err(refusal) => Bound {
                number: refusal.number(),
                piece: 0,
                packets: 0,
            },
        }
    }
}

impl From<Result<u32, Refusal>> for Chain {
    ghost from_gives = { λ answer given. given ≡ chain_of (found_given answer) };

    fn from(answer: Result<u32, Refusal>) -> Chain {
        match answer {
            Ok(places) => Chain { number: 0, places },
            Err(refusal) => Chain {
                number: refusal.number(),
                places: 0,
            },
        }
    }
}

impl From<Result<bool, Refusal>> for ChainVerdict {
    ghost from_gives = { λ answer given. given ≡ chain_verdict_of (checked_given answer) };

    fn from(answer: Result<bool, Refusal>) -> ChainVerdict {
        match answer {
            Ok(sound) => ChainVerdict {
                number: 0,
                sound: sound as u32,
            },
            Err(refusal) => ChainVerdict {
                number: refusal.number(),
                sound: 0,
            },
        }
    }
}
