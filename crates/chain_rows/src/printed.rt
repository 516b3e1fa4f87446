// A finder's and a checker's answer after a word.
use orders::refusal::{Refusal, number_given};
use row_lines::{ROOM, put_number};
use text::bytes::put_word;

pub fn put_found(
    word: &[u8],
    found: Result<u32, Refusal>,
    room: &mut [u8; ROOM],
    at: usize,
) -> usize {
    let number = u64::from(number_given(found.map(|_| ())));
    let place = put_number(word, number, room, at);
    match found {
        Ok(places) => put_number(b" places", u64::from(places), room, place),
        Err(_) => place,
    }
}

pub fn put_checked(
    word: &[u8],
    sound: Result<bool, Refusal>,
    room: &mut [u8; ROOM],
    at: usize,
) -> usize {
    let number = u64::from(number_given(sound.map(|_| ())));
    let place = put_number(word, number, room, at);
    match sound {
        Ok(true) => put_word(b" sound", room, place),
        Ok(false) => put_word(b" unsound", room, place),
        Err(_) => place,
    }
}
