// Feeds Bella's stream, read from standard input, to one live regulator: the order form and the bench read its peaks.
#![tactic(auto)]

use numbers::count::Packets;
use regulator::regulator::{Regulator, no_regulator, set_up};
use regulator::slot::slot;
use std::io::{self, Read, Write};
use stream::read::{arrivals_of, buffer_of, delay_of, table_of};

fn show(rt: &impl Print, label: &[u8], number: u64) -> io::Result<()> {
    io::writer(rt).write_all(label)?;
    println!(rt; " {number}")
}

// Bella's table has 11 entries and her trace 42 slots.
fn after_bella(file: &[u8]) -> Regulator {
    let mut table = [0; 11];
    table_of(file, &mut table);
    let mut arrivals = [0; 42];
    arrivals_of(file, &mut arrivals);
    let made = set_up(&table, delay_of(file), buffer_of(file));
    let mut now = made.unwrap_or_else(|_| no_regulator());
    for count in &arrivals {
        (_, now) = slot(now, Packets(u64::from(*count)));
    }
    now
}

// Bella's stream file has fewer bytes than this; what comes after it is not read.
const MOST_BYTES: u64 = 65_536;

fn main(rt: HostRuntime) -> io::Result<()> {
    let mut file = Vec::new(rt.alloc());
    rt.reader().take(MOST_BYTES).read_to_end(&mut file)?;
    let bella = after_bella(&file);
    show(&rt, b"slots", u64::from(bella.slots.0))?;
    show(&rt, b"form", bella.form_peak.0)?;
    show(&rt, b"bench", bella.bench_peak.0)?;
    let (_, same) = slot(bella, Packets(1_000_001));
    show(&rt, b"form after a refused slot", same.form_peak.0)?;
    show(&rt, b"bench after a refused slot", same.bench_peak.0)
}
