// Lines of the programs of rows, put into a lent room: words, and numbers with a space before each. The answer is the place after them.
// What would come after the room's end is left out.
#![tactic(auto)]

ghost use Rattle.std.specs.Prelude.{◌≡◌, [], ◌∷◌, min, get_or};
ghost use Rattle.text.specs.Put.{Put};
ghost use Rattle.row_lines.specs.Lines.{spaced, labelled, Ended};

use text::bytes::{put_byte, put_word};
use text::line::{LINE_FEED, put_field};

// The bytes of a room: more than any line has.
pub const ROOM: usize = 2048;

// A word and the numbers of a row.
pub fn put_row(word: &[u8], row: &[u32], room: &mut [u8; ROOM], at: usize) -> usize
    ensures { Put room.old at (labelled word.now row.now) room.new result }
{
    let mut place = put_word(word, room, at);
    for number in row {
        place = put_field(u64::from(*number), room, place);
    }
    place
}

// Numbers alone.
pub fn put_list(list: &[u32], room: &mut [u8; ROOM], at: usize) -> usize
    ensures { Put room.old at (spaced list.now) room.new result }
{
    put_row(b"", list, room, at)
}

// A word and a number.
pub fn put_number(word: &[u8], n: u64, room: &mut [u8; ROOM], at: usize) -> usize
    ensures { Put room.old at (labelled word.now (n ∷ [])) room.new result }
{
    let place = put_word(word, room, at);
    put_field(n, room, place)
}

// One more number.
pub fn put_next(n: u64, room: &mut [u8; ROOM], at: usize) -> usize
    ensures { Put room.old at (spaced (n ∷ [])) room.new result }
{
    put_field(n, room, at)
}

// The line feed. The answer is the size of the line, which is written as `&room[..size]`.
pub fn end_line(room: &mut [u8; ROOM], at: usize) -> usize
    ensures { Ended room.old at room.new result }
{
    put_byte(LINE_FEED, room, at)
}

// A row's number as a length of a list that has room for so many.
pub fn at_most(number: u32, most: usize) -> usize
    ensures { result ≡ min number most }
{
    (number as usize).min(most)
}

// A list's number at a place, 0 after its end.
pub fn at(list: &[u32], place: usize) -> u32
    ensures { result ≡ get_or list.now place 0 }
{
    list.get(place).copied().unwrap_or(0)
}
