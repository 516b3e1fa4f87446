// Set-ups, judged: the table's entries 1 and 2, the delay limit and the buffer limit.
use numbers::count::{Packets, Slots};
use orders::refusal::number_given;
use regulator::regulator::set_up;
use row_lines::{ROOM, end_line, put_number, put_row};
use std::io::{self, Write};

// Each limit about its last number and about none; then two at once; then both none; then a table before a limit.
const ROWS: [[u32; 4]; 11] = [
    [2, 3, 64, 9],
    [2, 3, 65, 9],
    [2, 3, 254, 9],
    [2, 3, 255, 9],
    [2, 3, 1, 1000000],
    [2, 3, 1, 1000001],
    [2, 3, 1, 4294967294],
    [2, 3, 1, 4294967295],
    [2, 3, 65, 1000001],
    [2, 3, 255, 4294967295],
    [3, 2, 65, 9],
];

fn set_up_row(rt: &impl Print, row: &[u32; 4]) -> io::Result<()> {
    let table = [0, row[0], row[1]];
    let made = set_up(&table, Slots(row[2]), Packets(u64::from(row[3])));
    let number = u64::from(number_given(made.map(|_| ())));
    let mut room = [0; ROOM];
    let place = put_row(b"set-up", row, &mut room, 0);
    let place = put_number(b" gets", number, &mut room, place);
    let size = end_line(&mut room, place);
    io::writer(rt).write_all(&room[..size])
}

pub fn set_ups_walked(rt: &impl Print) -> io::Result<()> {
    for row in &ROWS {
        set_up_row(rt, row)?;
    }
    Ok(())
}
