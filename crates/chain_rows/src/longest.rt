// The longest chain: a link for each slot of the longest trace, found and checked.
use crate::printed::{put_checked, put_found};
use chain::check::check_chain;
use found_links::find::find_chain;
use numbers::count::{Packets, Slots};
use row_lines::{ROOM, end_line, put_row};
use std::io::{self, Write};

const NO_BUFFER: u64 = 4_294_967_295;

// One packet a slot and two in every other slot: each slot is a link of its own, and 4,096 of them are found.
pub fn many_links(rt: &impl Print) -> io::Result<()> {
    let mut trace = [0; 4096];
    for (t, count) in trace.iter_mut().enumerate() {
        *count = if t % 2 == 0 { 2 } else { 0 };
    }
    let mut slots = [7; 4097];
    let mut marks = [7; 4097];
    let mut amounts = [7; 4097];
    let answer = find_chain(
        &[0, 1],
        Slots(0),
        Packets(NO_BUFFER),
        &trace,
        Slots(4096),
        &mut slots,
        &mut marks,
        &mut amounts,
    );
    let again = check_chain(
        &[0, 1],
        Slots(0),
        Packets(NO_BUFFER),
        &trace,
        Slots(4096),
        &slots,
        &marks,
        &amounts,
        4097,
    );
    let mut room = [0; ROOM];
    let place = put_found(b"the longest gets", answer, &mut room, 0);
    let place = put_row(
        b" last",
        &[slots[4096], marks[4096], amounts[4096]],
        &mut room,
        place,
    );
    let place = put_checked(b" checked", again, &mut room, place);
    let size = end_line(&mut room, place);
    io::writer(rt).write_all(&room[..size])
}
