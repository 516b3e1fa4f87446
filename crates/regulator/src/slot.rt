// The slot by value: a regulator goes in, and the regulator advanced comes back.
// The past is taken out, and one path leads through: what of the state no slot changes is then not copied.
ghost use Rattle.std.specs.Prelude.{◌≡◌};
ghost use Rattle.orders.specs.Answered.{number_given, unless_refused};
ghost use Rattle.live_step.specs.Answer.{answer_given};
ghost use Rattle.regulator.specs.Regulator.{slot_of};

use crate::regulator::Regulator;
use crate::step::{LATE, SOON};
use live_step::fill::{bench_fill, form_fill};
use live_step::past::push;
use live_step::record::{SlotRecord, record_of};
use live_step::step::{admit, forecast, forecast_late};
use numbers::count::{Packets, Slots};
use numbers::size::LAST_WINDOW;
use orders::refusal::Refusal;
use refusals::limits::slot_refusal;

// What a slot leaves: a refused one keeps what was before.
fn kept<T: Copy>(judged: Result<(), Refusal>, after: T, before: T) -> T
    ensures { result ≡ unless_refused (number_given judged) after before }
{
    if judged.is_ok() { after } else { before }
}

// Takes one slot: the record and the regulator advanced, or the refusal and the regulator as it was.
pub fn slot(r: Regulator, arrivals: Packets) -> (Result<SlotRecord, Refusal>, Regulator)
    ensures { (answer_given result.0 ≡ (slot_of r arrivals.0).answer) × (result.1 ≡ (slot_of r arrivals.0).regulator) }
{
    let judged = slot_refusal(arrivals, r.slots);
    let settings = r.settings;
    let last = (settings.last.0 as usize).min(LAST_WINDOW);
    let mut past = [0; LAST_WINDOW];
    past.copy_from_slice(&r.row[..LAST_WINDOW]);
    let before = past[0];
    let soon = forecast(&past, &settings.near, last);
    let late = forecast_late(&past, &settings.near, last, settings.delay.0);
    let totals = admit(
        soon,
        late,
        before,
        settings.buffer.0,
        r.admitted.0,
        arrivals.0,
    );
    let counted = record_of(totals, r.admitted.0, before, arrivals.0);
    if judged.is_ok() {
        push(&mut past, last, totals.departed);
    }
    let mut row = r.row;
    row[..LAST_WINDOW].copy_from_slice(&past);
    if judged.is_ok() {
        row[SOON] = soon;
        row[LATE] = late;
    }
    let form = r.form_peak.0.max(form_fill(counted));
    let bench = r.bench_peak.0.max(bench_fill(counted));
    let advanced = Regulator {
        settings,
        slots: kept(judged, Slots(r.slots.0.saturating_add(1)), r.slots),
        admitted: kept(judged, Packets(totals.admitted), r.admitted),
        form_peak: kept(judged, Packets(form), r.form_peak),
        bench_peak: kept(judged, Packets(bench), r.bench_peak),
        row,
    };
    (judged.map(|()| counted), advanced)
}
