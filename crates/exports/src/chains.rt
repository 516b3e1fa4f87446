// Chains of a whole trace from C or Rust: found, and anyone's checked.
ghost use Rattle.std.specs.Prelude.{◌≡◌};
ghost use Rattle.chain.specs.CheckerAnswer.{checked_of};
ghost use Rattle.c_answers.specs.Numbered.{chain_verdict_of, FoundByNumber};

use c_answers::answer::{Chain, ChainVerdict};
use chain::check::check_chain;
use found_links::find::find_chain;
use numbers::count::{Packets, Slots};

// Puts the chain to a slot at the three lists' first places, or answers a number and writes to none of them.
pub fn bezhantiru_find_chain(
    table: &[u32],
    delay: u32,
    buffer: u32,
    arrivals: &[u32],
    slot: u32,
    slots: &mut [u32],
    marks: &mut [u32],
    amounts: &mut [u32],
) -> Chain
    ensures { FoundByNumber table.now delay buffer arrivals.now slot slots.old marks.old amounts.old result slots.new marks.new amounts.new }
{
    find_chain(
        table,
        Slots(delay),
        Packets(u64::from(buffer)),
        arrivals,
        Slots(slot),
        slots,
        marks,
        amounts,
    )
    .into()
}

// Whether the first places of the three lists are a sound chain to a slot, or a number.
pub fn bezhantiru_check_chain(
    table: &[u32],
    delay: u32,
    buffer: u32,
    arrivals: &[u32],
    slot: u32,
    slots: &[u32],
    marks: &[u32],
    amounts: &[u32],
    places: u32,
) -> ChainVerdict
    ensures { result ≡ chain_verdict_of (checked_of table.now delay buffer arrivals.now slot slots.now marks.now amounts.now places) }
{
    check_chain(
        table,
        Slots(delay),
        Packets(u64::from(buffer)),
        arrivals,
        Slots(slot),
        slots,
        marks,
        amounts,
        places,
    )
    .into()
}
