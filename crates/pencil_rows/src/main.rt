// Compares the pencil version, the whole-trace run and a fresh live regulator on every short trace. A line is a set-up and a
// number of slots, the traces that were compared, the packets that the pencil loses in all of them, and the counts in which one of
// the other two differs from it.
#![tactic(auto)]

mod comparison;
mod traces;

use crate::traces::walked;
use std::io;

// A set-up: the table's number of entries, its entries after the first, the delay limit and the buffer limit. Document 01's table
// first; then each limit alone, at 0 and wide; then a table that its closure bends, and one that lets a burst go and then waits.
const SET_UPS: [[u32; 6]; 8] = [
    [3, 2, 3, 0, 1, 9],
    [3, 2, 3, 0, 1, 1],
    [3, 2, 3, 0, 255, 2],
    [3, 2, 3, 0, 2, 4294967295],
    [2, 1, 0, 0, 0, 1000000],
    [2, 1, 0, 0, 255, 0],
    [4, 2, 2, 5, 1, 2],
    [4, 3, 3, 4, 0, 2],
];

fn main(rt: HostRuntime) -> io::Result<()> {
    walked(&rt, &SET_UPS)
}
