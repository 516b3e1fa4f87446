// Profiles, judged: how many numbers, up to ten of them, the delay limit and the buffer limit.
use device::device::device_set_up;
use numbers::count::{Packets, Slots};
use orders::refusal::number_given;
use row_lines::{ROOM, end_line, put_number, put_row};
use std::io::{self, Write};

// No bucket to five, whole and half ones; rates and bursts at their most and above; then each refusal beside one that comes after it,
// or alone; then both limits none.
const ROWS: [[u32; 13]; 20] = [
    [0, 1, 2, 3, 4, 5, 6, 7, 8, 9, 10, 1, 9],
    [1, 1, 2, 3, 4, 5, 6, 7, 8, 9, 10, 1, 9],
    [2, 1, 2, 3, 4, 5, 6, 7, 8, 9, 10, 1, 9],
    [3, 1, 2, 3, 4, 5, 6, 7, 8, 9, 10, 1, 9],
    [4, 1, 2, 3, 4, 5, 6, 7, 8, 9, 10, 1, 9],
    [6, 1, 2, 3, 4, 5, 6, 7, 8, 9, 10, 1, 9],
    [8, 1, 2, 3, 4, 5, 6, 7, 8, 9, 10, 1, 9],
    [9, 1, 2, 3, 4, 5, 6, 7, 8, 9, 10, 1, 9],
    [10, 1, 2, 3, 4, 5, 6, 7, 8, 9, 10, 1, 9],
    [2, 1000000, 1000000, 0, 0, 0, 0, 0, 0, 0, 0, 1, 9],
    [2, 1000001, 2, 0, 0, 0, 0, 0, 0, 0, 0, 1, 9],
    [2, 1, 1000001, 0, 0, 0, 0, 0, 0, 0, 0, 1, 9],
    [8, 1, 2, 3, 4, 5, 6, 7, 1000001, 0, 0, 1, 9],
    [3, 1, 2, 1000001, 0, 0, 0, 0, 0, 0, 0, 1, 9],
    [2, 1000001, 2, 0, 0, 0, 0, 0, 0, 0, 0, 65, 9],
    [2, 1, 2, 0, 0, 0, 0, 0, 0, 0, 0, 65, 9],
    [2, 1, 2, 0, 0, 0, 0, 0, 0, 0, 0, 65, 1000001],
    [2, 1, 2, 0, 0, 0, 0, 0, 0, 0, 0, 64, 1000001],
    [2, 1, 2, 0, 0, 0, 0, 0, 0, 0, 0, 64, 4294967294],
    [2, 1, 2, 0, 0, 0, 0, 0, 0, 0, 0, 255, 4294967295],
];

fn profile_row(rt: &impl Print, row: &[u32; 13]) -> io::Result<()> {
    let end = 1 + (row[0] as usize).min(10);
    let made = device_set_up(&row[1..end], Slots(row[11]), Packets(u64::from(row[12])));
    let number = u64::from(number_given(made.map(|_| ())));
    let mut room = [0; ROOM];
    let place = put_row(b"profile", row, &mut room, 0);
    let place = put_number(b" gets", number, &mut room, place);
    let size = end_line(&mut room, place);
    io::writer(rt).write_all(&room[..size])
}

pub fn profiles_walked(rt: &impl Print) -> io::Result<()> {
    for row in &ROWS {
        profile_row(rt, row)?;
    }
    Ok(())
}
