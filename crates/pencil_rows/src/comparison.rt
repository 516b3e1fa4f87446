// One trace: the pencil's lists beside the run's, and beside a live regulator's records.
ghost use Rattle.std.specs.Prelude.{◌≤◌};

use numbers::count::{Packets, Slots};
use numbers::size::SHORT_TRACE;
use orders::refusal::number_given;
use pencil::run::pencil_run;
use regulator::regulator::{Regulator, no_regulator, set_up};
use regulator::slot::slot;
use trace::run::run;

// The packets that the pencil loses, and the counts in which another way differs from it.
#[derive(Clone, Copy)]
pub struct Compared {
    pub lost: u64,
    pub differ: u64,
}

impl Compared {
    pub fn plus(self, other: Compared) -> Compared {
        Compared {
            lost: self.lost.saturating_add(other.lost),
            differ: self.differ.saturating_add(other.differ),
        }
    }
}

// The places in which two lists differ.
fn differing(one: &[u32], other: &[u32]) -> u64 {
    one.iter().zip(other).filter(|(a, b)| a != b).count() as u64
}

// 1 where a list has not this count at a place, else 0.
fn unlike(count: u64, list: &[u32], place: usize) -> u64
    ensures { result ≤ 1 }
{
    match list.get(place) {
        Some(n) if u64::from(*n) == count => 0,
        _ => 1,
    }
}

// The counts in which a live regulator's records differ from the lists.
fn live_differing(
    fresh: Regulator,
    arrivals: &[u32],
    admitted: &[u32],
    dropped: &[u32],
    departed: &[u32],
) -> u64 {
    let mut now = fresh;
    let mut found: u64 = 0;
    for (t, count) in arrivals.iter().enumerate() {
        let (answer, after) = slot(now, Packets(u64::from(*count)));
        let differ = match answer {
            Ok(record) => {
                unlike(record.admitted, admitted, t)
                    + unlike(record.dropped, dropped, t)
                    + unlike(record.departed, departed, t)
            }
            Err(_) => 3,
        };
        found = found.saturating_add(differ);
        now = after;
    }
    found
}

// Both ways beside the pencil's lists, for a trace of at most five slots. Lists start as 7s and 8s, so that one left untouched shows.
pub fn compare(table: &[u32], delay: Slots, buffer: Packets, arrivals: &[u32]) -> Compared {
    let slots = arrivals.len().min(SHORT_TRACE);
    let (mut admitted, mut dropped, mut departed) = (
        [7; SHORT_TRACE],
        [7; SHORT_TRACE],
        [7; SHORT_TRACE],
    );
    let (mut ins, mut drops, mut outs) = ([8; SHORT_TRACE], [8; SHORT_TRACE], [8; SHORT_TRACE]);
    let admitted = &mut admitted[..slots];
    let dropped = &mut dropped[..slots];
    let departed = &mut departed[..slots];
    let ins = &mut ins[..slots];
    let drops = &mut drops[..slots];
    let outs = &mut outs[..slots];
    let by_pencil = pencil_run(table, delay, buffer, arrivals, admitted, dropped, departed);
    let by_run = run(table, delay, buffer, arrivals, ins, drops, outs);
    let fresh = set_up(table, delay, buffer).unwrap_or_else(|_| no_regulator());
    let differences = [
        u64::from(number_given(by_pencil)),
        u64::from(number_given(by_run)),
        differing(ins, admitted),
        differing(drops, dropped),
        differing(outs, departed),
        live_differing(fresh, arrivals, admitted, dropped, departed),
    ];
    let lost = dropped
        .iter()
        .fold(0u64, |sum, n| sum.saturating_add(u64::from(*n)));
    let differ = differences
        .iter()
        .fold(0u64, |sum, n| sum.saturating_add(*n));
    Compared { lost, differ }
}
