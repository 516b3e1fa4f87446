// Tables, judged: how many entries, and the first four; those after them are 0.
use orders::refusal::number_given;
use refusals::table::table_refusal;
use row_lines::{ROOM, end_line, put_number, put_row};
use std::io::{self, Write};

const MOST_ENTRIES: usize = 66;

// L at 64 and about it; each refusal alone, and the entries at its limit; then two at once.
const ROWS: [[u32; 5]; 13] = [
    [65, 0, 0, 0, 0],
    [66, 0, 0, 0, 0],
    [1, 0, 0, 0, 0],
    [0, 0, 0, 0, 0],
    [2, 1, 2, 0, 0],
    [2, 0, 1000000, 0, 0],
    [2, 0, 1000001, 0, 0],
    [3, 0, 5, 5, 0],
    [3, 0, 5, 4, 0],
    [1, 7, 0, 0, 0],
    [3, 1, 1000001, 0, 0],
    [4, 0, 5, 3, 1000001],
    [3, 0, 1000002, 1000001, 0],
];

fn table_row(rt: &impl Print, row: &[u32; 5]) -> io::Result<()> {
    let mut table = [0; MOST_ENTRIES];
    table[..4].copy_from_slice(&row[1..]);
    let entries = (row[0] as usize).min(MOST_ENTRIES);
    let number = number_given(table_refusal(&table[..entries]));
    let mut room = [0u8; ROOM];
    let place = put_row(b"table", row, &mut room, 0);
    let place = put_number(b" gets", u64::from(number), &mut room, place);
    let size = end_line(&mut room, place);
    io::writer(rt).write_all(&room[..size])
}

pub fn tables_walked(rt: &impl Print) -> io::Result<()> {
    for row in &ROWS {
        table_row(rt, row)?;
    }
    Ok(())
}
