// Questions to a table 0, n, m: how many entries, n, m, and the window.
use numbers::count::Slots;
use orders::refusal::Refusal;
use question::question::{WindowBound, ask};
use row_lines::{ROOM, end_line, put_number, put_row};
use settings::table::take;
use std::io::{self, Write};

const MOST_ENTRIES: usize = 3;

// Window 0, windows beyond the table, an entry that its closure lowers; the last window and one more; f at its most.
const ROWS: [[u32; 4]; 7] = [
    [3, 2, 3, 0],
    [3, 2, 3, 3],
    [3, 2, 3, 4],
    [3, 2, 5, 2],
    [3, 2, 3, 4160],
    [3, 2, 3, 4161],
    [2, 1000000, 0, 4160],
];

fn asked(row: &[u32; 4]) -> Result<WindowBound, Refusal> {
    let table = [0, row[1], row[2]];
    let entries = (row[0] as usize).min(MOST_ENTRIES);
    ask(take(&table[..entries])?, Slots(row[3]))
}

fn put_answer(answer: Result<WindowBound, Refusal>, room: &mut [u8; ROOM], at: usize) -> usize {
    match answer {
        Ok(bound) => {
            let place = put_number(b" gets 0 f", bound.packets.0, room, at);
            put_number(b" piece", u64::from(bound.piece.0), room, place)
        }
        Err(refusal) => put_number(b" gets", u64::from(refusal.number()), room, at),
    }
}

fn question_row(rt: &impl Print, row: &[u32; 4]) -> io::Result<()> {
    let mut room = [0u8; ROOM];
    let place = put_row(b"question", row, &mut room, 0);
    let place = put_answer(asked(row), &mut room, place);
    let size = end_line(&mut room, place);
    io::writer(rt).write_all(&room[..size])
}

pub fn questions_walked(rt: &impl Print) -> io::Result<()> {
    for row in &ROWS {
        question_row(rt, row)?;
    }
    Ok(())
}
