// Chains checked.
use crate::printed::put_checked;
use chain::check::check_chain;
use numbers::count::{Packets, Slots};
use row_lines::{ROOM, end_line, put_row};
use std::io::{self, Write};

// A chain to slot 4 of document 01's row, d 1 and q 9: the length of its first list, its places, slots, marks and amounts. Sound: the
// found one, all arrivals, the buffer's link, a link a slot. Unsound: another amount, f at t, marks that are none, a standstill;
// another last slot, a detour, another start; other numbers of places. Refused: a short list.
const CHAINS: [[u32; 17]; 19] = [
    [5, 3, 0, 3, 4, 7, 7, 0, 2, 1, 7, 7, 0, 6, 0, 7, 7],
    [5, 2, 0, 4, 7, 7, 7, 0, 1, 7, 7, 7, 0, 9, 7, 7, 7],
    [5, 2, 0, 4, 7, 7, 7, 0, 3, 7, 7, 7, 0, 14, 7, 7, 7],
    [5, 5, 0, 1, 2, 3, 4, 0, 1, 1, 1, 1, 0, 5, 0, 4, 0],
    [5, 3, 0, 3, 4, 7, 7, 0, 2, 1, 7, 7, 0, 6, 1, 7, 7],
    [5, 2, 0, 4, 7, 7, 7, 0, 3, 7, 7, 7, 0, 15, 7, 7, 7],
    [5, 2, 0, 4, 7, 7, 7, 0, 4, 7, 7, 7, 0, 9, 7, 7, 7],
    [5, 2, 0, 4, 7, 7, 7, 0, 0, 7, 7, 7, 0, 9, 7, 7, 7],
    [5, 3, 0, 4, 4, 7, 7, 0, 1, 1, 7, 7, 0, 9, 0, 7, 7],
    [5, 2, 0, 3, 7, 7, 7, 0, 2, 7, 7, 7, 0, 6, 7, 7, 7],
    [5, 3, 0, 4294967295, 4, 7, 7, 0, 1, 1, 7, 7, 0, 9, 0, 7, 7],
    [5, 2, 1, 4, 7, 7, 7, 0, 1, 7, 7, 7, 0, 4, 7, 7, 7],
    [5, 2, 0, 4, 7, 7, 7, 1, 1, 7, 7, 7, 0, 9, 7, 7, 7],
    [5, 2, 0, 4, 7, 7, 7, 0, 1, 7, 7, 7, 1, 9, 7, 7, 7],
    [5, 0, 0, 4, 7, 7, 7, 0, 1, 7, 7, 7, 0, 9, 7, 7, 7],
    [5, 1, 0, 4, 7, 7, 7, 0, 1, 7, 7, 7, 0, 9, 7, 7, 7],
    [5, 6, 0, 1, 2, 3, 4, 0, 1, 1, 1, 1, 0, 5, 0, 4, 0],
    [5, 4294967295, 0, 1, 2, 3, 4, 0, 1, 1, 1, 1, 0, 5, 0, 4, 0],
    [4, 2, 0, 4, 7, 7, 7, 0, 1, 7, 7, 7, 0, 9, 7, 7, 7],
];

// One link to slot 2 of 3, 4 with table 0,0, of which f is 0: the delay limit, the buffer limit, the slot asked for, its mark and its
// amount. A mark of each limit, of one that is none, of none taken as a number; a slot that the trace has not.
const LIMITS: [[u32; 5]; 6] = [
    [0, 4294967295, 2, 2, 0],
    [255, 5, 2, 2, 0],
    [255, 5, 2, 3, 5],
    [0, 4294967295, 2, 3, 5],
    [0, 4294967295, 2, 3, 4294967295],
    [0, 4294967295, 3, 2, 0],
];

fn chain_row(rt: &impl Print, row: &[u32; 17]) -> io::Result<()> {
    let end = 2 + (row[0] as usize).min(5);
    let answer = check_chain(
        &[0, 2, 3],
        Slots(1),
        Packets(9),
        &[5, 0, 4, 0],
        Slots(4),
        &row[2..end],
        &row[7..12],
        &row[12..17],
        row[1],
    );
    let mut room = [0; ROOM];
    let place = put_row(b"check", row, &mut room, 0);
    let place = put_checked(b" gets", answer, &mut room, place);
    let size = end_line(&mut room, place);
    io::writer(rt).write_all(&room[..size])
}

pub fn chains_walked(rt: &impl Print) -> io::Result<()> {
    for row in &CHAINS {
        chain_row(rt, row)?;
    }
    Ok(())
}

fn limit_row(rt: &impl Print, row: &[u32; 5]) -> io::Result<()> {
    let answer = check_chain(
        &[0, 0],
        Slots(row[0]),
        Packets(u64::from(row[1])),
        &[3, 4],
        Slots(row[2]),
        &[0, 2, 7],
        &[0, row[3], 7],
        &[0, row[4], 7],
        2,
    );
    let mut room = [0; ROOM];
    let place = put_row(b"limit", &row[..], &mut room, 0);
    let place = put_checked(b" gets", answer, &mut room, place);
    let size = end_line(&mut room, place);
    io::writer(rt).write_all(&room[..size])
}

pub fn limits_walked(rt: &impl Print) -> io::Result<()> {
    for row in &LIMITS {
        limit_row(rt, row)?;
    }
    Ok(())
}
