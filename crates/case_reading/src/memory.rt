// The memory that case after case lends, in buffers that a program has taken.
use crate::case::Lent;

// As many words as a case can lend.
pub const WORDS: usize = 65535;

// The buffers that words and starts are lent in.
#[derive(Drop)]
pub struct Room {
    pub words: Vec<u32>,
    pub starts: Vec<u32>,
}

// The words that are lent, as many as the buffer has room for, put at its front.
pub fn load<'a>(buffer: &'a mut [u32], lent: Lent<'_>) -> &'a mut [u32] {
    let count = lent.count.min(buffer.len());
    let words = &mut buffer[..count];
    words.fill(0);
    for (word, given) in words.iter_mut().zip(lent.given) {
        *word = u32::from_be_bytes(*given);
    }
    words
}
