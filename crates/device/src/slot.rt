// The slot by value: a device goes in, and the device advanced comes back.
ghost use Rattle.std.specs.Prelude.{◌≡◌};
ghost use Rattle.live_step.specs.Answer.{answer_given};
ghost use Rattle.device.specs.Device.{device_slot_of};

use crate::device::Device;
use crate::parts::device_slot_on;
use live_step::record::SlotRecord;
use numbers::count::{Packets, Slots};
use orders::refusal::Refusal;

// Takes one slot: the record and the device advanced, or the refusal and the device as it was.
pub fn device_slot(device: Device, arrivals: Packets) -> (Result<SlotRecord, Refusal>, Device)
    ensures { (answer_given result.0 ≡ (device_slot_of device arrivals.0).answer) × (result.1 ≡ (device_slot_of device arrivals.0).device) }
{
    let settings = device.settings;
    let rates = settings.rates;
    let bursts = settings.bursts;
    let mut levels = device.levels;
    let mut slots = device.slots.0;
    let mut admitted = device.admitted.0;
    let mut departed = device.departed.0;
    let mut form_peak = device.form_peak.0;
    let mut bench_peak = device.bench_peak.0;
    let answer = device_slot_on(
        &mut levels,
        &rates,
        &bursts,
        settings.buckets,
        settings.delay.0,
        settings.buffer.0,
        &mut slots,
        &mut admitted,
        &mut departed,
        &mut form_peak,
        &mut bench_peak,
        arrivals.0,
    );
    let advanced = Device {
        settings,
        slots: Slots(slots),
        admitted: Packets(admitted),
        departed: Packets(departed),
        levels,
        form_peak: Packets(form_peak),
        bench_peak: Packets(bench_peak),
    };
    (answer, advanced)
}
