// What is refused of anyone's rows, and what is answered of them.
ghost use Rattle.std.specs.Prelude.{◌≡◌};
ghost use Rattle.orders.specs.Answered.{number_given};
ghost use Rattle.orders.specs.Refusal.{◌or_else◌};
ghost use Rattle.refusals.specs.Lengths.{lists_refusal};
ghost use Rattle.rivals.specs.Judgement.{rival_refusal, judgement_of};
ghost use Rattle.rivals.specs.Rules.{Held, slot_of, broken_by};

use crate::rules::{Rule, Totals};
use crate::tally::tally;
use numbers::count::{Packets, Slots};
use orders::refusal::Refusal;
use refusals::lengths::{counts_refusal, length_refusal, list_refusal};
use refusals::limits::set_up_refusal;

// A number, and 0 for the rest; or 0, and the rule, slot and window that are broken first, all 0 where the rows are permitted.
#[repr(C)]
#[derive(Clone, Copy)]
pub struct Judgement {
    pub number: u32,
    pub rule: u32,
    pub slot: u32,
    pub window: u32,
}

// The judgement of rows that are permitted.
pub const PERMITTED: Judgement = Judgement {
    number: 0,
    rule: 0,
    slot: 0,
    window: 0,
};

// 11: one of two lists not as long as the trace.
#[tactic(auto, using(orders::proofs::Given::refused_first, orders::proofs::Given::passed_first))]
fn lists_refusal(slots: usize, admitted: usize, departed: usize) -> Result<(), Refusal>
    ensures { number_given result ≡ (lists_refusal slots admitted or_else lists_refusal slots departed) }
{
    list_refusal(slots, admitted)?;
    list_refusal(slots, departed)
}

// Set-up, 10, 11, 8.
#[tactic(auto, unfolding(crate::specs::Judgement::rival_refusal), using(orders::proofs::Given::refused_first, orders::proofs::Given::passed_first))]
pub fn rival_refusal(
    table: &[u32],
    delay: Slots,
    buffer: Packets,
    arrivals: &[u32],
    admitted: usize,
    departed: usize,
) -> Result<(), Refusal>
    ensures { number_given result ≡ rival_refusal table.now delay.0 buffer.0 arrivals.now admitted departed }
{
    let slots = arrivals.len();
    set_up_refusal(table, delay, buffer)?;
    length_refusal(slots)?;
    lists_refusal(slots, admitted, departed)?;
    counts_refusal(arrivals)
}

// What the totals break first.
fn broken(totals: &Totals) -> Judgement
    requires { Held totals.now }
    ensures { result ≡ broken_by totals.now (slot_of totals.now) }
{
    let Some((slot, rule)) = totals.broken_slot() else {
        return PERMITTED;
    };
    let window = match rule {
        Rule::Envelope => totals.broken_window(slot).unwrap_or(0),
        _ => 0,
    };
    Judgement {
        rule: rule.number(),
        slot: slot as u32,
        window,
        ..PERMITTED
    }
}

// Judges anyone's rows: packets admitted and departed in each slot of the trace.
pub fn judge(
    table: &[u32],
    delay: Slots,
    buffer: Packets,
    arrivals: &[u32],
    admitted: &[u32],
    departed: &[u32],
) -> Judgement
    ensures { result ≡ judgement_of table.now delay.0 buffer.0 arrivals.now admitted.now departed.now }
{
    if let Err(refusal) = rival_refusal(
        table,
        delay,
        buffer,
        arrivals,
        admitted.len(),
        departed.len(),
    ) {
        return Judgement {
            number: refusal.number(),
            ..PERMITTED
        };
    }
    // Lent to be filled: rows of 32 KiB given back would be copied.
    let mut ins = [0; 4097];
    let mut outs = [0; 4097];
    tally(admitted, &mut ins);
    tally(departed, &mut outs);
    let totals = Totals {
        table,
        delay: delay.0,
        buffer: buffer.0,
        arrivals,
        admitted: &ins,
        departed: &outs,
    };
    broken(&totals)
}
