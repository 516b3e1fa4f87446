// What a program prints: the loss table, or a refusal. Where it does not fit, nothing is written and 0 is answered.
ghost use Rattle.std.specs.Prelude.{length};
ghost use Rattle.text.specs.Printed.{Printed, table_printed, refused_printed};

use crate::bytes::put_word;
use crate::line::put_last;
use crate::table::Lists;

// The bytes of a room: more than any line of the table has.
pub const LINE_ROOM: usize = 64;

// More than the lines before and after the rows have.
pub const HEADING_AND_TOTALS_ROOM: usize = 128;

// More than the line of a refusal has.
const REFUSAL_ROOM: usize = 32;

pub fn put_table(
    arrived: &[u32],
    admitted: &[u32],
    dropped: &[u32],
    departed: &[u32],
    out: &mut [u8],
) -> usize
    ensures { Printed out.old (table_printed arrived.now admitted.now dropped.now departed.now (length out.old)) out.new result }
{
    let lists = Lists {
        arrived,
        admitted,
        dropped,
        departed,
    };
    if lists.fit(out.len()) {
        lists.put_whole(out)
    } else {
        0
    }
}

pub fn put_refused(number: u32, out: &mut [u8]) -> usize
    ensures { Printed out.old (refused_printed number (length out.old)) out.new result }
{
    if out.len() < REFUSAL_ROOM {
        return 0;
    }
    let place = put_word(b"refused", out, 0);
    put_last(u64::from(number), out, place)
}
