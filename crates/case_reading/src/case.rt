// A case taken apart from its front. Its numbers have their most significant byte first.
ghost use Rattle.std.specs.Prelude.{◌<◌, IfSome};

use types::Counters;
use types::arc_ty::wide;

// What is not yet taken: the rest of a case, and what follows it. Nothing is taken that isn't there whole.
#[derive(Clone, Copy)]
pub struct Case<'a> {
    rest: &'a [u8],
}

// Words that are lent: how many, and the first of them by their bytes; the rest are zero.
#[derive(Clone, Copy)]
pub struct Lent<'a> {
    pub count: usize,
    pub given: &'a [[u8; 4]],
}

// Memory that is lent.
#[derive(Clone, Copy)]
pub struct Memory<'a> {
    pub counters: Counters,
    pub words: Lent<'a>,
    pub starts: Lent<'a>,
}

// What a host lends: a name table and memory.
#[derive(Clone, Copy)]
pub struct Host<'a> {
    pub table: &'a [u8],
    pub memory: Memory<'a>,
}

impl<'a> Case<'a> {
    pub fn new(input: &'a [u8]) -> Self {
        Case { rest: input }
    }

    // How many bytes are not yet taken.
    pub fn left(self) -> usize {
        self.rest.len()
    }

    pub fn byte(&mut self) -> Option<u8> {
        let (&byte, rest) = self.rest.split_first()?;
        self.rest = rest;
        Some(byte)
    }

    pub fn short(&mut self) -> Option<usize>
        ensures { IfSome result (λ n. n < 65536) }
    {
        let (bytes, rest) = self.rest.split_first_chunk()?;
        self.rest = rest;
        Some(usize::from(u16::from_be_bytes(*bytes)))
    }

    pub fn word(&mut self) -> Option<u32> {
        let (bytes, rest) = self.rest.split_first_chunk()?;
        self.rest = rest;
        Some(u32::from_be_bytes(*bytes))
    }

    // The next bytes, as many as this.
    pub fn part(&mut self, count: usize) -> Option<&'a [u8]> {
        let (part, rest) = self.rest.split_at_checked(count)?;
        self.rest = rest;
        Some(part)
    }

    // A length in four bytes, and as many bytes: a table, a text or a sheet.
    pub fn text(&mut self) -> Option<&'a [u8]> {
        let length = self.word()?;
        self.part(wide(length))
    }

    // The next words, as many as this, by their bytes.
    fn words(&mut self, count: usize) -> Option<&'a [[u8; 4]]> {
        let bytes = self.part(count.checked_mul(4)?)?;
        let (words, _) = bytes.as_chunks();
        Some(words)
    }

    // How many words, and all of these: a node.
    pub fn node(&mut self) -> Option<Lent<'a>> {
        let count = self.short()?;
        let given = self.words(count)?;
        Some(Lent { count, given })
    }

    // How many words are lent, how many of them follow, and these.
    fn lent(&mut self) -> Option<Lent<'a>> {
        let count = self.short()?;
        let first = self.short()?;
        if count < first {
            return None;
        }
        let given = self.words(first)?;
        Some(Lent { count, given })
    }

    // Counters, words and starts.
    pub fn memory(&mut self) -> Option<Memory<'a>> {
        let nodes = self.word()?;
        let words = self.word()?;
        Some(Memory {
            counters: Counters {
                nodes: wide(nodes),
                words: wide(words),
            },
            words: self.lent()?,
            starts: self.lent()?,
        })
    }

    pub fn host(&mut self) -> Option<Host<'a>> {
        Some(Host {
            table: self.text()?,
            memory: self.memory()?,
        })
    }
}
