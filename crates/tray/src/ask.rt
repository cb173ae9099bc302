// A case answered: its card searched, in room that is lent for it.
use crate::show;
use crate::words::{card, number};
use reply::Answer;
use report::Room;
use search::{paused, search};
use std::io::Result;

// The most bytes of room that are lent: more than any card needs.
const MOST: usize = 2 * Room::BYTES;

// LABEL|QUESTION|ROOM|CARD; a field that is missing is empty.
pub(crate) fn answer(rt: &impl Print, line: &[u8]) -> Result<()> {
    let mut fields = line.splitn(4, |b| *b == b'|');
    let label = fields.next().unwrap_or(&[]);
    let question = fields.next().unwrap_or(&[]);
    let lent = number(fields.next().unwrap_or(&[]));
    let text = fields.next().unwrap_or(&[]);
    let mut bytes = [0u8; 65536];
    let mut room = [b'#'; MOST];
    let room = &mut room[..lent.min(MOST)];
    let n = card(text, &mut bytes);
    let answer = found(question, &bytes[..n], room);
    show::answer(rt, label, answer, room)
}

fn found(question: &[u8], file: &[u8], room: &mut [u8]) -> Answer {
    match question {
        b"search" => search(file, room),
        k => paused(file, number(k) as u64, room),
    }
}
