// Slots of one live regulator, table 0,1, no delay limit and a buffer of 1,000,000: how many calls, and the arrivals in each.
use live_step::fill::form_fill;
use live_step::record::SlotRecord;
use numbers::count::{Packets, Slots};
use orders::refusal::Refusal;
use regulator::regulator::{Regulator, no_regulator, set_up};
use regulator::slot::slot;
use row_lines::{ROOM, end_line, put_number, put_row};
use std::io::{self, Write};

// The most arrivals and one more; the buffer full; refused calls, which are not counted; all slots taken but one, and all; then 9, and
// 8 before 9.
const ROWS: [[u32; 2]; 8] = [
    [1, 1000000],
    [1, 1000001],
    [5000, 1000000],
    [10, 1000001],
    [994998, 0],
    [1, 0],
    [1, 0],
    [1, 1000001],
];

// The last of so many calls, one at least.
fn called(r: Regulator, count: u32, arrivals: u64) -> (Result<SlotRecord, Refusal>, Regulator) {
    let (mut answer, mut now) = slot(r, Packets(arrivals));
    for _ in 1..count {
        (answer, now) = slot(now, Packets(arrivals));
    }
    (answer, now)
}

// The last call's number, and what is held after it where it is counted.
fn put_answer(answer: Result<SlotRecord, Refusal>, room: &mut [u8; ROOM], at: usize) -> usize {
    match answer {
        Ok(record) => put_number(b" get 0 held", form_fill(record), room, at),
        Err(refusal) => put_number(b" get", u64::from(refusal.number()), room, at),
    }
}

fn calls_row(rt: &impl Print, r: Regulator, row: &[u32; 2]) -> io::Result<Regulator> {
    let (answer, after) = called(r, row[0], u64::from(row[1]));
    let mut room = [0; ROOM];
    let place = put_row(b"slots", row, &mut room, 0);
    let place = put_answer(answer, &mut room, place);
    let place = put_number(b" taken", u64::from(after.slots.0), &mut room, place);
    let size = end_line(&mut room, place);
    io::writer(rt).write_all(&room[..size])?;
    Ok(after)
}

pub fn calls_walked(rt: &impl Print) -> io::Result<()> {
    let made = set_up(&[0, 1], Slots(255), Packets(1000000));
    let mut now = made.unwrap_or_else(|_| no_regulator());
    for row in &ROWS {
        now = calls_row(rt, now, row)?;
    }
    Ok(())
}
