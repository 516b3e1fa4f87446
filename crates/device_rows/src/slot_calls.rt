// Calls on a fresh device: how many numbers of the profile, up to eight of them, the delay limit, the buffer limit, how many calls, and
// the arrivals of up to six.
use crate::printed::put_answer;
use device::device::{Device, device_set_up, no_device};
use device::slot::device_slot;
use live_step::record::SlotRecord;
use numbers::count::{Packets, Slots};
use orders::refusal::Refusal;
use row_lines::{ROOM, end_line, put_next, put_number, put_row};
use std::io::{self, Write};

// A profile that is refused; buckets 4/0 and 1/12 with each limit, with both and with each at 0, and one of the two alone; rates and
// bursts of 0 with each limit; four buckets and a refused call; f(1) at its most.
const ROWS: [[u32; 18]; 14] = [
    [3, 1, 2, 3, 0, 0, 0, 0, 0, 1, 9, 2, 5, 1000001, 0, 0, 0, 0],
    [4, 4, 0, 1, 12, 0, 0, 0, 0, 255, 4, 4, 6, 6, 6, 6, 0, 0],
    [
        4, 4, 0, 1, 12, 0, 0, 0, 0, 1, 4294967295, 6, 6, 6, 6, 6, 0, 0,
    ],
    [4, 4, 0, 1, 12, 0, 0, 0, 0, 1, 4, 6, 6, 6, 6, 6, 0, 0],
    [4, 4, 0, 1, 12, 0, 0, 0, 0, 255, 0, 4, 6, 6, 6, 6, 0, 0],
    [4, 4, 0, 1, 12, 0, 0, 0, 0, 0, 4, 4, 6, 6, 6, 6, 0, 0],
    [2, 4, 0, 0, 0, 0, 0, 0, 0, 255, 4, 4, 6, 6, 6, 6, 0, 0],
    [2, 1, 12, 0, 0, 0, 0, 0, 0, 255, 4, 4, 6, 6, 6, 6, 0, 0],
    [2, 0, 3, 0, 0, 0, 0, 0, 0, 255, 2, 3, 4, 4, 0, 0, 0, 0],
    [2, 2, 0, 0, 0, 0, 0, 0, 0, 1, 9, 3, 5, 0, 5, 0, 0, 0],
    [2, 0, 0, 0, 0, 0, 0, 0, 0, 255, 5, 2, 3, 4, 0, 0, 0, 0],
    [2, 0, 0, 0, 0, 0, 0, 0, 0, 3, 5, 2, 3, 4, 0, 0, 0, 0],
    [8, 9, 0, 3, 4, 2, 7, 1, 10, 2, 5, 6, 20, 0, 6, 1000001, 6, 0],
    [
        2, 1000000, 1000000, 0, 0, 0, 0, 0, 0, 64, 1000000, 3, 1000000, 1000000, 1000000, 0, 0, 0,
    ],
];

// A call's answer and the two peaks after it.
fn show_call(
    rt: &impl Print,
    answer: Result<SlotRecord, Refusal>,
    after: &Device,
) -> io::Result<()> {
    let mut room = [0; ROOM];
    let place = put_answer(b"", answer, &mut room, 0);
    let place = put_number(b" peaks", after.form_peak.0, &mut room, place);
    let place = put_next(after.bench_peak.0, &mut room, place);
    let size = end_line(&mut room, place);
    io::writer(rt).write_all(&room[..size])
}

fn calls_row(rt: &impl Print, row: &[u32; 18]) -> io::Result<()> {
    let given = 1 + (row[0] as usize).min(8);
    let called = 12 + (row[11] as usize).min(6);
    let made = device_set_up(&row[1..given], Slots(row[9]), Packets(u64::from(row[10])));
    let (number, mut now) = match made {
        Ok(device) => (0, device),
        Err(refusal) => (refusal.number(), no_device()),
    };
    let mut room = [0; ROOM];
    let place = put_row(b"calls", row, &mut room, 0);
    let place = put_number(b" get", u64::from(number), &mut room, place);
    let size = end_line(&mut room, place);
    io::writer(rt).write_all(&room[..size])?;
    for count in &row[12..called] {
        let (answer, after) = device_slot(now, Packets(u64::from(*count)));
        show_call(rt, answer, &after)?;
        now = after;
    }
    Ok(())
}

pub fn calls_walked(rt: &impl Print) -> io::Result<()> {
    for row in &ROWS {
        calls_row(rt, row)?;
    }
    Ok(())
}
