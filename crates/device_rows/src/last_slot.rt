// Slots of one device of rate 1 and burst 0, no delay limit and a buffer of 1,000,000: how many calls, and the arrivals in each.
use crate::printed::put_answer;
use device::device::{Device, device_set_up, no_device};
use device::slot::device_slot;
use live_step::record::SlotRecord;
use numbers::count::{Packets, Slots};
use orders::refusal::Refusal;
use row_lines::{ROOM, end_line, put_next, put_number, put_row};
use std::io::{self, Write};

// The buffer full; refused calls, which are not counted; all slots taken; then 9, and 8 before 9.
const ROWS: [[u32; 2]; 5] = [
    [1000, 1000000],
    [10, 1000001],
    [999000, 0],
    [1, 0],
    [1, 1000001],
];

// The last of so many calls, one at least.
fn called(device: Device, count: u32, arrivals: u64) -> (Result<SlotRecord, Refusal>, Device) {
    let mut last = device_slot(device, Packets(arrivals));
    for _ in 1..count {
        last = device_slot(last.1, Packets(arrivals));
    }
    last
}

// The last call's answer, and the device's totals and peaks after it.
fn slots_row(rt: &impl Print, device: Device, row: &[u32; 2]) -> io::Result<Device> {
    let (answer, after) = called(device, row[0], u64::from(row[1]));
    let mut room = [0; ROOM];
    let place = put_row(b"slots", row, &mut room, 0);
    let place = put_answer(b" get", answer, &mut room, place);
    let place = put_number(b" taken", u64::from(after.slots.0), &mut room, place);
    let place = put_number(b" totals", after.admitted.0, &mut room, place);
    let place = put_next(after.departed.0, &mut room, place);
    let place = put_number(b" peaks", after.form_peak.0, &mut room, place);
    let place = put_next(after.bench_peak.0, &mut room, place);
    let size = end_line(&mut room, place);
    io::writer(rt).write_all(&room[..size])?;
    Ok(after)
}

pub fn slots_walked(rt: &impl Print) -> io::Result<()> {
    let made = device_set_up(&[1, 0], Slots(255), Packets(1000000));
    let mut now = made.unwrap_or_else(|_| no_device());
    for row in &ROWS {
        now = slots_row(rt, now, row)?;
    }
    Ok(())
}
