// Chains found: the entries of a table 0, n, m, n and m, the delay limit, the buffer limit, the slots of a trace k, j, 4, 0, 0, .., k and
// j, the slot asked for, and the lengths of the lists. Lists start as 7s, so that an untouched place shows.
use crate::printed::put_found;
use found_links::find::find_chain;
use numbers::count::{Packets, Slots};
use row_lines::{ROOM, end_line, put_row};
use std::io::{self, Write};

const LONGEST: usize = 4097;

const PLACES: usize = 5;

// Document 01's row with d 1 and q 9, slot by slot, and slots that it has not; both limits none, the buffer alone, no slot; then each
// refusal beside all that come after it.
const ROWS: [[u32; 12]; 17] = [
    [3, 2, 3, 1, 9, 4, 5, 0, 0, 5, 5, 5],
    [3, 2, 3, 1, 9, 4, 5, 0, 1, 5, 5, 5],
    [3, 2, 3, 1, 9, 4, 5, 0, 2, 5, 5, 5],
    [3, 2, 3, 1, 9, 4, 5, 0, 3, 5, 5, 5],
    [3, 2, 3, 1, 9, 4, 5, 0, 4, 5, 5, 5],
    [3, 2, 3, 1, 9, 4, 5, 0, 5, 5, 5, 5],
    [3, 2, 3, 1, 9, 4, 5, 0, 4294967295, 5, 5, 5],
    [3, 2, 3, 255, 4294967295, 3, 5, 0, 3, 4, 4, 4],
    [2, 0, 0, 255, 5, 2, 3, 4, 2, 3, 3, 3],
    [3, 2, 3, 1, 9, 0, 5, 0, 0, 1, 1, 1],
    [3, 2, 3, 1, 9, 2, 5, 1000001, 3, 3, 3, 3],
    [3, 2, 3, 1, 9, 2, 5, 1000001, 3, 2, 3, 3],
    [3, 2, 3, 1, 9, 2, 5, 1000001, 3, 3, 2, 3],
    [3, 2, 3, 1, 9, 2, 5, 1000001, 3, 3, 3, 2],
    [3, 2, 3, 65, 9, 2, 5, 1000001, 3, 3, 3, 2],
    [3, 3, 2, 65, 9, 2, 5, 1000001, 3, 3, 3, 2],
    [3, 2, 3, 1, 9, 4097, 5, 1000001, 4098, 2, 2, 2],
];

fn found_row(rt: &impl Print, row: &[u32; 12]) -> io::Result<()> {
    let table = [0, row[1], row[2]];
    let mut trace = [0; LONGEST];
    trace[..3].copy_from_slice(&[row[6], row[7], 4]);
    let mut slots = [7; PLACES];
    let mut marks = [7; PLACES];
    let mut amounts = [7; PLACES];
    let slots = &mut slots[..(row[9] as usize).min(PLACES)];
    let marks = &mut marks[..(row[10] as usize).min(PLACES)];
    let amounts = &mut amounts[..(row[11] as usize).min(PLACES)];
    let answer = find_chain(
        &table[..(row[0] as usize).min(3)],
        Slots(row[3]),
        Packets(u64::from(row[4])),
        &trace[..(row[5] as usize).min(LONGEST)],
        Slots(row[8]),
        slots,
        marks,
        amounts,
    );
    let mut room = [0; ROOM];
    let place = put_row(b"find", row, &mut room, 0);
    let place = put_found(b" gets", answer, &mut room, place);
    let place = put_row(b" slots", slots, &mut room, place);
    let place = put_row(b" marks", marks, &mut room, place);
    let place = put_row(b" amounts", amounts, &mut room, place);
    let size = end_line(&mut room, place);
    io::writer(rt).write_all(&room[..size])
}

pub fn found_walked(rt: &impl Print) -> io::Result<()> {
    for row in &ROWS {
        found_row(rt, row)?;
    }
    Ok(())
}
