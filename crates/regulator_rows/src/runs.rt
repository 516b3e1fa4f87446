// Runs over arrivals 5, n, 4, 0, 0, .. with table 0,2,3 and a buffer of 9: the delay limit, the slots, n, and the lengths of the lists
// for admitted, dropped and departed packets. Lists start as 7s, so that an untouched place shows.
use numbers::count::{Packets, Slots};
use orders::refusal::number_given;
use row_lines::{ROOM, end_line, put_list, put_number, put_row};
use std::io::{self, Write};
use trace::run::run;

const LONGEST: usize = 4097;

const PLACES: usize = 4;

// No slot, and document 01's four; each list too short; then 8, and what comes before it: 11, 6, 10.
const ROWS: [[u32; 6]; 9] = [
    [1, 0, 0, 0, 0, 0],
    [1, 4, 0, 4, 4, 4],
    [1, 4, 0, 3, 4, 4],
    [1, 4, 0, 4, 3, 4],
    [1, 4, 0, 4, 4, 3],
    [1, 2, 1000001, 2, 2, 2],
    [1, 2, 1000001, 2, 2, 1],
    [65, 2, 1000001, 2, 2, 1],
    [1, 4097, 1000001, 2, 2, 1],
];

fn run_row(rt: &impl Print, row: &[u32; 6]) -> io::Result<()> {
    let mut arrivals = [0; LONGEST];
    arrivals[..3].copy_from_slice(&[5, row[2], 4]);
    let mut ins = [7; PLACES];
    let mut drops = [7; PLACES];
    let mut outs = [7; PLACES];
    let ins = &mut ins[..(row[3] as usize).min(PLACES)];
    let drops = &mut drops[..(row[4] as usize).min(PLACES)];
    let outs = &mut outs[..(row[5] as usize).min(PLACES)];
    let answer = run(
        &[0, 2, 3],
        Slots(row[0]),
        Packets(9),
        &arrivals[..(row[1] as usize).min(LONGEST)],
        ins,
        drops,
        outs,
    );
    let number = u64::from(number_given(answer));
    let mut room = [0; ROOM];
    let place = put_row(b"run", row, &mut room, 0);
    let place = put_number(b" gets", number, &mut room, place);
    let place = put_row(b" lists", ins, &mut room, place);
    let place = put_list(drops, &mut room, place);
    let place = put_list(outs, &mut room, place);
    let size = end_line(&mut room, place);
    io::writer(rt).write_all(&room[..size])
}

pub fn runs_walked(rt: &impl Print) -> io::Result<()> {
    for row in &ROWS {
        run_row(rt, row)?;
    }
    Ok(())
}
