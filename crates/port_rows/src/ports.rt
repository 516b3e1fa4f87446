// The two streams of docs/PENCIL.md at a shared port, in both orders, and other sizes.
ghost use Rattle.std.specs.Prelude.{◌≤◌};

use crate::PLACES;
use numbers::count::Slots;
use orders::refusal::number_given;
use port::run::port_run;
use row_lines::{ROOM, end_line, put_list, put_number, put_row};
use std::io::{self, Write};

// Streams of 4 slots: the first, the second, and the first again.
const STREAMS: [u32; 12] = [2, 1, 0, 1, 1, 4, 1, 0, 2, 1, 0, 1];

// A row: the deadlines of the first stream and of all others, streams, slots, capacity, where the input begins in `STREAMS`, the
// input's last count, and the lengths of the input and of the lists for sent and late packets. First the two streams, with other
// capacities and deadlines; then sizes; then each refusal beside all that come after it.
const ROWS: [[u32; 10]; 25] = [
    [2, 1, 2, 4, 2, 0, 0, 8, 8, 2],
    [1, 2, 2, 4, 2, 4, 1, 8, 8, 2],
    [2, 1, 2, 4, 0, 0, 0, 8, 8, 2],
    [2, 1, 2, 4, 3, 0, 0, 8, 8, 2],
    [2, 1, 2, 4, 4294967295, 0, 0, 8, 8, 2],
    [0, 0, 2, 4, 2, 0, 0, 8, 8, 2],
    [64, 0, 2, 4, 2, 0, 0, 8, 8, 2],
    [64, 64, 2, 4, 0, 0, 0, 8, 8, 2],
    [2, 1, 1, 4, 1, 0, 1, 4, 4, 1],
    [2, 1, 8, 1, 5, 0, 0, 8, 8, 8],
    [2, 1, 2, 0, 2, 0, 0, 0, 0, 2],
    [2, 1, 8, 0, 0, 0, 0, 0, 0, 8],
    [2, 1, 0, 0, 2, 0, 0, 0, 0, 0],
    [2, 1, 9, 0, 2, 0, 0, 0, 0, 9],
    [2, 1, 2, 257, 2, 0, 0, 8, 8, 2],
    [65, 1, 9, 4, 2, 0, 1000001, 1, 1, 1],
    [65, 1, 2, 257, 2, 0, 1000001, 1, 1, 1],
    [65, 1, 2, 4, 2, 0, 1000001, 1, 1, 1],
    [1, 65, 2, 256, 2, 0, 1000001, 1, 1, 1],
    [1, 4294967295, 2, 0, 2, 0, 0, 0, 0, 2],
    [2, 1, 2, 4, 2, 0, 1000001, 7, 8, 2],
    [2, 1, 2, 4, 2, 0, 1000001, 8, 9, 2],
    [2, 1, 2, 4, 2, 0, 1000001, 8, 8, 1],
    [2, 1, 2, 4, 2, 0, 1000001, 8, 8, 2],
    [2, 1, 2, 4, 2, 0, 1000000, 8, 8, 2],
];

// The deadlines of the first stream and of all others.
fn deadlines_of(row: &[u32; 10]) -> [u32; PLACES] {
    let mut made = [row[1]; PLACES];
    made[0] = row[0];
    made
}

// Slots of `STREAMS`, the last of them with the row's own count.
fn input_of(row: &[u32; 10], given: usize) -> [u32; PLACES]
    requires { given ≤ 34 }
{
    let mut made = [0; PLACES];
    let from = STREAMS.iter().skip(row[5] as usize);
    for (count, came) in made[..given].iter_mut().zip(from) {
        *count = *came;
    }
    if given > 0 {
        made[given - 1] = row[6];
    }
    made
}

// Lists start as 7s, so that an untouched place shows.
fn port_row(rt: &impl Print, row: &[u32; 10]) -> io::Result<()> {
    let streams = (row[2] as usize).min(PLACES);
    let given = (row[7] as usize).min(PLACES);
    let listed = (row[8] as usize).min(PLACES);
    let counted = (row[9] as usize).min(PLACES);
    let deadlines = deadlines_of(row);
    let input = input_of(row, given);
    let mut sent = [7; PLACES];
    let mut late = [7; PLACES];
    let sent = &mut sent[..listed];
    let late = &mut late[..counted];
    let slots = Slots(row[3]);
    let answer = port_run(
        &deadlines[..streams],
        slots,
        row[4],
        &input[..given],
        sent,
        late,
    );
    let mut room = [0; ROOM];
    let place = put_row(b"port", row, &mut room, 0);
    let number = u64::from(number_given(answer));
    let place = put_number(b" gets", number, &mut room, place);
    let place = put_list(sent, &mut room, place);
    let place = put_list(late, &mut room, place);
    let size = end_line(&mut room, place);
    io::writer(rt).write_all(&room[..size])
}

pub fn port_rows(rt: &impl Print) -> io::Result<()> {
    for row in &ROWS {
        port_row(rt, row)?;
    }
    Ok(())
}
