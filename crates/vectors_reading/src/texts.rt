// The text of a type, and the sheet of an arena: the calls that write into lent bytes.
use crate::answers::Rooms;
use crate::call::Type;
use answer_writing::answer::{Answer, Good};
use answer_writing::memory::put_bytes;
use case_reading::memory::load;
use std::io;
use std::io::Write;
use types::{Counters, Refusal};

// What lent bytes are before a text is written.
pub const UNTOUCHED: u8 = 0xaa;

fn all_are(text: &[u8], byte: u8) -> bool {
    text.iter().all(|&other| other == byte)
}

// Whether the bytes are as they should be: past what was written they are as lent. So are all after a refusal, but one that the
// text is too long, which leaves the byte that the call says.
fn left_right(text: &[u8], answer: Result<usize, Refusal>, too_long: u8) -> bool {
    match answer {
        Ok(length) => all_are(text.get(length..).unwrap_or(&[]), UNTOUCHED),
        Err(Refusal::TextTooLong) => all_are(text, too_long),
        Err(_) => all_are(text, UNTOUCHED),
    }
}

// What a call answered that writes into lent bytes, and what it wrote. What it left beside that is judged here, for no answer
// shows it.
pub fn put_written<
    W: Write,
    F: FnOnce(&[u8], &[u32], &[u32], Counters, u32, &mut [u8]) -> Result<usize, Refusal>,
>(
    out: &mut W,
    rooms: &mut Rooms,
    t: Type<'_>,
    lent: usize,
    too_long: u8,
    write: F,
) -> io::Result<()>
    requires { F.IsAlwaysCallable write }
{
    let memory = t.host.memory;
    let room = &mut rooms.room;
    let text = &mut rooms.text;
    let words = load(&mut room.words, memory.words);
    let starts = load(&mut room.starts, memory.starts);
    let count = lent.min(text.len());
    let text = &mut text[..count];
    text.fill(UNTOUCHED);
    let answer = write(t.host.table, words, starts, memory.counters, t.root, text);
    write!(out, "{}", Answer(answer.map(Good)))?;
    if let Ok(length) = answer {
        put_bytes(out, text.get(..length).unwrap_or(&[]))?;
    }
    if left_right(text, answer, too_long) {
        return Ok(());
    }
    write!(out, " with bytes that aren't as they should be")
}
