// Words and bytes, put into a writer.
use std::io;
use std::io::Write;

// The first words in base sixteen, each behind a space.
fn put_words<W: Write>(out: &mut W, words: &[u32], count: usize) -> io::Result<()> {
    for word in words.iter().take(count) {
        write!(out, " {word:x}")?;
    }
    Ok(())
}

// How many words there are up to the last that isn't zero.
fn without_zeros(words: &[u32]) -> usize {
    words
        .iter()
        .rposition(|&word| word != 0)
        .map_or(0, |last| last + 1)
}

// The words that are counted. One behind them that isn't zero is put too, and shows that the list is wrong.
pub fn put_list<W: Write>(out: &mut W, words: &[u32], count: usize) -> io::Result<()> {
    put_words(out, words, without_zeros(words).max(count))
}

// The memory as a call leaves it: a letter, and the words without the zeros at their end, twice.
pub fn put_memory<W: Write>(out: &mut W, words: &[u32], starts: &[u32]) -> io::Result<()> {
    write!(out, " W")?;
    put_list(out, words, 0)?;
    write!(out, " S")?;
    put_list(out, starts, 0)
}

// Bytes by two digits each, behind a space.
pub fn put_bytes<W: Write>(out: &mut W, bytes: &[u8]) -> io::Result<()> {
    write!(out, " ")?;
    for byte in bytes {
        write!(out, "{byte:02x}")?;
    }
    Ok(())
}
