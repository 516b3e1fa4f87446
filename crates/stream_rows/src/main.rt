// Runs the stream file's reader: each line is a file's number, 0 for accepted, and the numbers of the part that holds its counts.
#![tactic(auto)]

use orders::refusal::number_given;
use std::io::{self, Write};
use stream::judge::file_refusal;
use stream::number::number_at;
use stream::read::counts_of;

fn show(rt: &impl Print, label: &[u8], number: u64) -> io::Result<()> {
    io::writer(rt).write_all(label)?;
    print!(rt; "{number}")
}

fn numbers(rt: &impl Print, part: &[u8]) -> io::Result<()> {
    for i in 0..part.len() / 4 {
        show(rt, b" ", u64::from(number_at(part, i)))?;
    }
    Ok(())
}

fn read(rt: &impl Print, label: &[u8], file: &[u8]) -> io::Result<()> {
    let part = counts_of(file);
    io::writer(rt).write_all(label)?;
    let number = number_given(file_refusal(file));
    show(rt, b" gets ", u64::from(number))?;
    show(rt, b" and a part of ", part.len() as u64)?;
    print!(rt; " bytes:")?;
    numbers(rt, part)?;
    println!(rt)
}

// L 2, T 10, m 3, no delay limit, q 9; table 0,2,3; slots 2, 5 and one more; counts 7,0,263.
fn three_bursts(rt: &impl Print) -> io::Result<()> {
    read(
        rt,
        b"slots 2,5,9 with 7,0,263",
        b"\x02\0\0\0\x0a\0\0\0\x03\0\0\0\xff\0\0\0\x09\0\0\0\0\0\0\0\x02\0\0\0\x03\0\0\0\x02\0\0\0\x05\0\0\0\x09\0\0\0\x07\0\0\0\0\0\0\0\x07\x01\0\0",
    )?;
    read(
        rt,
        b"slots 2,5,5 with 7,0,263",
        b"\x02\0\0\0\x0a\0\0\0\x03\0\0\0\xff\0\0\0\x09\0\0\0\0\0\0\0\x02\0\0\0\x03\0\0\0\x02\0\0\0\x05\0\0\0\x05\0\0\0\x07\0\0\0\0\0\0\0\x07\x01\0\0",
    )?;
    read(
        rt,
        b"slots 2,5,11 with 7,0,263",
        b"\x02\0\0\0\x0a\0\0\0\x03\0\0\0\xff\0\0\0\x09\0\0\0\0\0\0\0\x02\0\0\0\x03\0\0\0\x02\0\0\0\x05\0\0\0\x0b\0\0\0\x07\0\0\0\0\0\0\0\x07\x01\0\0",
    )
}

fn main(rt: HostRuntime) -> io::Result<()> {
    three_bursts(&rt)?;
    let zeros = [0u8; 20];
    read(&rt, b"19 bytes", &zeros[..19])?;
    read(&rt, b"20 bytes", &zeros[..20])
}
