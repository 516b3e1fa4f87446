// The device of leaky buckets from C or Rust: made once, then lent part by part for each slot.
ghost use Rattle.std.specs.Prelude.{◌≡◌};
ghost use Rattle.device.specs.Device.{device_made, device_of, device_set_up_given};
ghost use Rattle.exports.specs.NumberedDevice.{made_device_of, DeviceRowOn};

use c_answers::answer::SlotRow;
use device::device::{Device, device_set_up, no_device};
use device::parts::device_slot_on;
use numbers::count::{Packets, Slots};
use orders::refusal::Refusal;

// A device, and 0; or a number, and the device that takes no slot.
#[repr(C)]
#[derive(Clone, Copy)]
pub struct MadeDevice {
    pub number: u32,
    pub device: Device,
}

impl From<Result<Device, Refusal>> for MadeDevice {
    ghost from_gives = { λ answer given. given ≡ made_device_of (device_set_up_given answer) };

    fn from(answer: Result<Device, Refusal>) -> MadeDevice {
        match answer {
            Ok(device) => MadeDevice { number: 0, device },
            Err(refusal) => MadeDevice {
                number: refusal.number(),
                device: no_device(),
            },
        }
    }
}

// A fresh device for a profile and two limits, or 15, 16, 6, 7 or 23.
pub fn bezhantiru_device_set_up(profile: &[u32], delay: u32, buffer: u32) -> MadeDevice
    ensures { result ≡ made_device_of (device_made profile.now delay buffer) }
{
    device_set_up(profile, Slots(delay), Packets(u64::from(buffer))).into()
}

// Takes one slot on a device that is lent part by part: those parts that a slot may change, and copies of the others.
pub fn bezhantiru_device_slot_on(
    levels: &mut [u64; 4],
    rates: &[u32; 4],
    bursts: &[u32; 4],
    buckets: u32,
    delay: u32,
    buffer: u64,
    slots: &mut u32,
    admitted: &mut u64,
    departed: &mut u64,
    form_peak: &mut u64,
    bench_peak: &mut u64,
    arrivals: u64,
) -> SlotRow
    ensures { DeviceRowOn (device_of buckets delay buffer rates.now bursts.now slots.old admitted.old departed.old levels.old form_peak.old bench_peak.old) arrivals result slots.new admitted.new departed.new levels.new form_peak.new bench_peak.new }
{
    device_slot_on(
        levels, rates, bursts, buckets, delay, buffer, slots, admitted, departed, form_peak,
        bench_peak, arrivals,
    )
    .into()
}
