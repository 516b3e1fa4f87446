// Every short trace of a set-up, slots by slots.
use crate::comparison::{Compared, compare};
use numbers::count::{Packets, Slots};
use pencil::listing::list_traces;
use row_lines::{ROOM, end_line, put_number, put_row};
use std::io::{self, Write};

// Slots, their traces, and the places that these take in a list.
const SIZES: [[u32; 3]; 6] = [
    [0, 1, 0],
    [1, 4, 4],
    [2, 16, 32],
    [3, 64, 192],
    [4, 256, 1024],
    [5, 1024, 5120],
];

const MOST_PLACES: usize = 5120;

const MOST_ENTRIES: usize = 4;

// All traces of a list, one after the other. A list that ends before them counts as one more difference.
fn each(
    table: &[u32],
    delay: Slots,
    buffer: Packets,
    slots: usize,
    traces: u32,
    list: &[u32],
) -> Compared {
    let mut found = Compared { lost: 0, differ: 0 };
    let mut rest = list;
    for _ in 0..traces {
        if slots > rest.len() {
            return found.plus(Compared { lost: 0, differ: 1 });
        }
        let (trace, later) = rest.split_at(slots);
        found = found.plus(compare(table, delay, buffer, trace));
        rest = later;
    }
    found
}

fn line(rt: &impl Print, set_up: &[u32; 6], size: &[u32; 3]) -> io::Result<()> {
    let [entries, first, second, third, delay, buffer] = *set_up;
    let [slots, traces, places] = *size;
    let table = [0, first, second, third];
    let table = &table[..(entries as usize).min(MOST_ENTRIES)];
    let mut list = [7; MOST_PLACES];
    let list = &mut list[..(places as usize).min(MOST_PLACES)];
    // None of the sizes is refused: each has the places of its traces.
    let _ = list_traces(slots as usize, list);
    let found = each(
        table,
        Slots(delay),
        Packets(u64::from(buffer)),
        slots as usize,
        traces,
        list,
    );
    let mut room = [0; ROOM];
    let place = put_row(b"set-up", set_up, &mut room, 0);
    let place = put_number(b" slots", u64::from(slots), &mut room, place);
    let place = put_number(b" traces", u64::from(traces), &mut room, place);
    let place = put_number(b" lost", found.lost, &mut room, place);
    let place = put_number(b" differ", found.differ, &mut room, place);
    let length = end_line(&mut room, place);
    io::writer(rt).write_all(&room[..length])
}

pub fn walked(rt: &impl Print, set_ups: &[[u32; 6]; 8]) -> io::Result<()> {
    for set_up in set_ups {
        for size in &SIZES {
            line(rt, set_up, size)?;
        }
    }
    Ok(())
}
