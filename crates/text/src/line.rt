// A line of the printed table after its first field: numbers with a single space before each, and a line feed.
ghost use Rattle.std.specs.Prelude.{[], ◌∷◌};
ghost use Rattle.text.specs.Digits.{digits};
ghost use Rattle.text.specs.Counts.{fields};
ghost use Rattle.text.specs.Lines.{numbers};
ghost use Rattle.text.specs.Put.{Put};

use crate::bytes::put_byte;
use crate::number::put_number;

// Packets arrived, admitted, dropped and departed in a slot or in all, and held after it.
#[derive(Clone, Copy)]
pub(crate) struct Counts {
    pub(crate) arrived: u64,
    pub(crate) admitted: u64,
    pub(crate) dropped: u64,
    pub(crate) departed: u64,
    pub(crate) held: u64,
}

const SPACE: u8 = b' ';

pub const LINE_FEED: u8 = b'\n';

pub fn put_field(n: u64, out: &mut [u8], at: usize) -> usize
    ensures { Put out.old at (32 ∷ digits n) out.new result }
{
    let place = put_byte(SPACE, out, at);
    put_number(n, out, place)
}

// The end of a line: its last field and the line feed.
pub(crate) fn put_last(n: u64, out: &mut [u8], at: usize) -> usize
    ensures { Put out.old at (numbers (n ∷ [])) out.new result }
{
    let place = put_field(n, out, at);
    put_byte(LINE_FEED, out, place)
}

pub(crate) fn put_counts(counts: Counts, out: &mut [u8], at: usize) -> usize
    ensures { Put out.old at (numbers (fields counts)) out.new result }
{
    let place = put_field(counts.arrived, out, at);
    let place = put_field(counts.admitted, out, place);
    let place = put_field(counts.dropped, out, place);
    let place = put_field(counts.departed, out, place);
    put_last(counts.held, out, place)
}
