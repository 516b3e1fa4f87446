// The trace that loses most, from C or Rust.
ghost use Rattle.std.specs.Prelude.{◌≡◌};
ghost use Rattle.worst.specs.Worst.{worst_given};
ghost use Rattle.exports.specs.NumberedRuns.{worst_of, WorstByNumber};

use numbers::count::{Packets, Slots};
use orders::refusal::Refusal;
use worst::worst;

// The loss by the last slot, and 0; or a number, and 0. The loss is at most what all slots may bring, a number of 32 bits.
#[repr(C)]
#[derive(Clone, Copy)]
pub struct Worst {
    pub number: u32,
    pub loss: u32,
}

impl From<Result<u32, Refusal>> for Worst {
    ghost from_gives = { λ answer given. given ≡ worst_of (worst_given answer) };

    fn from(answer: Result<u32, Refusal>) -> Worst {
        match answer {
            Ok(loss) => Worst { number: 0, loss },
            Err(refusal) => Worst {
                number: refusal.number(),
                loss: 0,
            },
        }
    }
}

// Writes the trace and tells its loss, or answers a number and writes nothing.
pub fn bezhantiru_worst_trace(
    table: &[u32],
    delay: u32,
    buffer: u32,
    slots: u32,
    most_in_slot: u32,
    most_in_all: u32,
    trace: &mut [u32],
) -> Worst
    ensures { WorstByNumber table.now delay buffer slots most_in_slot most_in_all trace.old result trace.new }
{
    worst(
        table,
        Slots(delay),
        Packets(u64::from(buffer)),
        slots as usize,
        most_in_slot,
        most_in_all,
        trace,
    )
    .into()
}
