// The cable link of docs/PENCIL.md, with up to two entries changed, as a varying envelope.
ghost use Rattle.std.specs.Prelude.{◌≤◌};

use crate::PLACES;
use numbers::count::{Packets, Slots};
use orders::refusal::number_given;
use row_lines::{ROOM, end_line, put_list, put_number, put_row};
use square::run::run;
use std::io::{self, Write};

// F(s,t) for s from 0 to 6 and t from 0 to 7; after slot 7 a row stays at its last number, and later rows are 0.
const LINK: [[u32; 8]; 7] = [
    [0, 2, 3, 5, 5, 5, 7, 9],
    [0, 0, 2, 2, 2, 2, 5, 8],
    [0, 0, 0, 0, 0, 0, 3, 5],
    [0, 0, 0, 0, 0, 0, 3, 5],
    [0, 0, 0, 0, 0, 0, 3, 5],
    [0, 0, 0, 0, 0, 0, 3, 5],
    [0, 0, 0, 0, 0, 0, 0, 3],
];

const ARRIVALS: [u32; 8] = [5, 3, 1, 2, 6, 0, 1, 0];

// A row: s, t and F(s,t) twice, d, q, slots, the arrivals of the last slot, and the lengths of the lists for admitted, dropped and
// departed packets. First the link with q 4, with d 1, with both, with d 0, and with two entries as its closure has them; then how
// far it reaches; then each refusal, beside those that come after it or alone.
const ROWS: [[u32; 13]; 32] = [
    [0, 0, 0, 0, 0, 0, 255, 4, 7, 1, 7, 7, 7],
    [0, 0, 0, 0, 0, 0, 1, 4294967295, 6, 0, 6, 6, 6],
    [0, 0, 0, 0, 0, 0, 1, 4, 6, 0, 6, 6, 6],
    [0, 0, 0, 0, 0, 0, 0, 4294967295, 7, 1, 7, 7, 7],
    [0, 3, 3, 0, 4, 3, 255, 4, 4, 2, 4, 4, 4],
    [0, 0, 0, 0, 0, 0, 32, 9, 0, 0, 0, 0, 0],
    [0, 0, 0, 0, 0, 0, 33, 9, 0, 0, 0, 0, 0],
    [0, 0, 0, 0, 0, 0, 64, 9, 0, 0, 0, 0, 0],
    [0, 0, 0, 0, 0, 0, 31, 9, 1, 5, 1, 1, 1],
    [0, 0, 0, 0, 0, 0, 31, 9, 2, 3, 2, 2, 2],
    [0, 0, 0, 0, 0, 0, 255, 9, 32, 1, 32, 32, 32],
    [0, 0, 0, 0, 0, 0, 255, 9, 33, 1, 33, 33, 33],
    [0, 0, 0, 0, 0, 0, 0, 9, 32, 1, 32, 32, 32],
    [32, 32, 1, 0, 9, 1000001, 65, 1000001, 33, 1000001, 1, 1, 1],
    [32, 0, 1, 0, 9, 1, 65, 1000001, 33, 1000001, 1, 1, 1],
    [0, 0, 1, 0, 0, 0, 1, 9, 1, 5, 1, 1, 1],
    [0, 9, 1000001, 1, 9, 1, 65, 1000001, 33, 1000001, 1, 1, 1],
    [31, 32, 1000000, 0, 0, 0, 1, 9, 1, 5, 1, 1, 1],
    [31, 32, 1000001, 0, 0, 0, 1, 9, 1, 5, 1, 1, 1],
    [0, 9, 1, 1, 9, 1000001, 65, 1000001, 33, 1000001, 1, 1, 1],
    [6, 32, 2, 0, 0, 0, 1, 9, 1, 5, 1, 1, 1],
    [0, 0, 0, 0, 0, 0, 65, 1000001, 33, 1000001, 1, 1, 1],
    [0, 0, 0, 0, 0, 0, 254, 9, 1, 5, 1, 1, 1],
    [0, 0, 0, 0, 0, 0, 64, 1000001, 33, 1000001, 1, 1, 1],
    [0, 0, 0, 0, 0, 0, 1, 4294967294, 1, 5, 1, 1, 1],
    [0, 0, 0, 0, 0, 0, 255, 4294967295, 33, 1000001, 1, 1, 1],
    [0, 0, 0, 0, 0, 0, 255, 9, 33, 1000001, 1, 1, 1],
    [0, 0, 0, 0, 0, 0, 1, 9, 32, 1000001, 1, 1, 1],
    [0, 0, 0, 0, 0, 0, 1, 9, 2, 1000001, 1, 2, 2],
    [0, 0, 0, 0, 0, 0, 1, 9, 2, 1000001, 2, 3, 2],
    [0, 0, 0, 0, 0, 0, 1, 9, 2, 1000001, 2, 2, 1],
    [0, 0, 0, 0, 0, 0, 1, 9, 2, 1000001, 2, 2, 2],
];

fn entry(row: &[u32; 13], s: usize, t: usize) -> u32 {
    if row[0] as usize == s && row[1] as usize == t {
        return row[2];
    }
    if row[3] as usize == s && row[4] as usize == t {
        return row[5];
    }
    if s < LINK.len() { LINK[s][t.min(7)] } else { 0 }
}

fn square_of(row: &[u32; 13]) -> [[u32; 33]; 33] {
    let mut made = [[0; 33]; 33];
    for s in 0..33 {
        for t in 0..33 {
            made[s][t] = entry(row, s, t);
        }
    }
    made
}

// The first slots of `ARRIVALS`, the last of them with the row's own count.
fn arrivals_of(row: &[u32; 13], slots: usize) -> [u32; PLACES]
    requires { slots ≤ 34 }
{
    let mut made = [0; PLACES];
    for (count, came) in made[..slots].iter_mut().zip(&ARRIVALS) {
        *count = *came;
    }
    if slots > 0 {
        made[slots - 1] = row[9];
    }
    made
}

// Lists start as 7s, so that an untouched place shows.
fn square_row(rt: &impl Print, row: &[u32; 13]) -> io::Result<()> {
    let slots = (row[8] as usize).min(PLACES);
    let admitted = (row[10] as usize).min(PLACES);
    let dropped = (row[11] as usize).min(PLACES);
    let departed = (row[12] as usize).min(PLACES);
    let arrivals = arrivals_of(row, slots);
    let mut ins = [7; PLACES];
    let mut drops = [7; PLACES];
    let mut outs = [7; PLACES];
    let ins = &mut ins[..admitted];
    let drops = &mut drops[..dropped];
    let outs = &mut outs[..departed];
    let delay = Slots(row[6]);
    let buffer = Packets(u64::from(row[7]));
    let answer = run(
        square_of(row),
        delay,
        buffer,
        &arrivals[..slots],
        ins,
        drops,
        outs,
    );
    let mut room = [0; ROOM];
    let place = put_row(b"square", row, &mut room, 0);
    let number = u64::from(number_given(answer));
    let place = put_number(b" gets", number, &mut room, place);
    let place = put_list(ins, &mut room, place);
    let place = put_list(drops, &mut room, place);
    let place = put_list(outs, &mut room, place);
    let size = end_line(&mut room, place);
    io::writer(rt).write_all(&room[..size])
}

pub fn square_rows(rt: &impl Print) -> io::Result<()> {
    for row in &ROWS {
        square_row(rt, row)?;
    }
    Ok(())
}
