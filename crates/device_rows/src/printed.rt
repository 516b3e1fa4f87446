// A slot's answer after a word: what is held before, admitted, dropped and departed, or its number.
use live_step::record::SlotRecord;
use orders::refusal::Refusal;
use row_lines::{ROOM, put_next, put_number};
use text::bytes::put_word;

pub fn put_answer(
    word: &[u8],
    answer: Result<SlotRecord, Refusal>,
    room: &mut [u8; ROOM],
    at: usize,
) -> usize {
    match answer {
        Ok(record) => {
            let place = put_number(word, record.held_before, room, at);
            let place = put_next(record.admitted, room, place);
            let place = put_next(record.dropped, room, place);
            put_next(record.departed, room, place)
        }
        Err(refusal) => {
            let place = put_word(word, room, at);
            put_number(b" refused", u64::from(refusal.number()), room, place)
        }
    }
}
