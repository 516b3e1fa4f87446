// The device of buckets: what it is made of, and set-up from a profile and two limits.
ghost use Rattle.std.specs.Prelude.{◌≡◌};
ghost use Rattle.orders.specs.Answered.{number_given};
ghost use Rattle.device.specs.Profile.{device_refusal};
ghost use Rattle.device.specs.Device.{no_device, device_made, device_set_up_given};

use crate::profile::{bursts_of, full_levels, profile_refusal, rates_of};
use numbers::count::{Packets, Slots};
use numbers::size::MOST_SLOTS;
use orders::refusal::Refusal;
use refusals::limits::limits_refusal;

// The number of buckets, the two limits as document 01 numbers them, and each bucket's rate and burst.
#[repr(C)]
#[derive(Clone, Copy)]
pub struct DeviceSettings {
    pub buckets: u32,
    pub delay: Slots,
    pub buffer: Packets,
    pub rates: [u32; 4],
    pub bursts: [u32; 4],
}

// Slots taken, packets admitted and departed so far, each bucket's level, and the peaks of the two fills. A level is a running
// total too: the most that its bucket lets depart through the slots so far.
#[repr(C)]
#[derive(Clone, Copy)]
pub struct Device {
    pub settings: DeviceSettings,
    pub slots: Slots,
    pub admitted: Packets,
    pub departed: Packets,
    pub levels: [u64; 4],
    pub form_peak: Packets,
    pub bench_peak: Packets,
}

// 15, 16, then 6, 7, 23.
#[tactic(auto, unfolding(crate::specs::Profile::device_refusal), using(orders::proofs::Given::refused_first, orders::proofs::Given::passed_first))]
pub fn device_refusal(profile: &[u32], delay: Slots, buffer: Packets) -> Result<(), Refusal>
    ensures { number_given result ≡ device_refusal profile.now delay.0 buffer.0 }
{
    profile_refusal(profile)?;
    limits_refusal(delay, buffer)
}

// What stands for no device: 1,000,000 slots are already taken, so it takes none.
#[tactic(auto, unfolding(crate::specs::Device::no_device))]
pub fn no_device() -> Device
    ensures { result ≡ no_device }
{
    Device {
        settings: DeviceSettings {
            buckets: 0,
            delay: Slots(0),
            buffer: Packets(0),
            rates: [0; 4],
            bursts: [0; 4],
        },
        slots: Slots(MOST_SLOTS),
        admitted: Packets(0),
        departed: Packets(0),
        levels: [0; 4],
        form_peak: Packets(0),
        bench_peak: Packets(0),
    }
}

// A fresh device for a profile and limits that are accepted.
pub fn device_set_up(profile: &[u32], delay: Slots, buffer: Packets) -> Result<Device, Refusal>
    ensures { device_set_up_given result ≡ device_made profile.now delay.0 buffer.0 }
{
    device_refusal(profile, delay, buffer)?;
    let rates = rates_of(profile);
    let bursts = bursts_of(profile);
    let levels = full_levels(profile);
    Ok(Device {
        settings: DeviceSettings {
            buckets: (profile.len() / 2) as u32,
            delay,
            buffer,
            rates,
            bursts,
        },
        slots: Slots(0),
        admitted: Packets(0),
        departed: Packets(0),
        levels,
        form_peak: Packets(0),
        bench_peak: Packets(0),
    })
}
