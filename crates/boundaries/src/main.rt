// `intern` at its limits: what is just taken, and one past it what is refused. It prints a line a call: the node's number and
// the counters after, or the number of the refusal. Words that are no node's are written out; all others go through `Head` and
// `field_word`.
#![tactic(auto)]

use answer_writing::answer::{Answer, stored};
use arena::intern;
use deep_types::{Arena, NODES, WORDS, head};
use std::io;
use types::Counters;
use types::arc_ty::Head;
use types::attrset::field_word;

// One call, and what it answered.
fn try_intern(
    rt: &impl Print,
    label: &str,
    table: &[u8],
    arena: &mut Arena<'_>,
    c: Counters,
    node: &[u32],
) -> io::Result<()> {
    let answer = intern(table, arena.words, arena.starts, c, node);
    println!(rt; "{label}: {}", Answer(answer.map(stored)))
}

fn counters(nodes: usize, words: usize) -> Counters {
    Counters { nodes, words }
}

// The variables 0, 1, .., two words each.
fn put_vars(arena: &mut Arena<'_>, count: u32) {
    for index in 0..count {
        arena.put(Head::TY_VAR, &[index]);
    }
}

// A union of 64 members, each node 0 or 1 by the bits of `pattern`.
fn members(pattern: u32) -> [u32; 64] {
    let mut members = [0; 64];
    let mut rest = pattern;
    for member in &mut members {
        *member = rest % 2;
        rest /= 2;
    }
    members
}

// A name table: the first bytes of an array that has room for one byte more than a table may have.
#[derive(Drop)]
struct Names {
    bytes: [u8; 65537],
    length: usize,
}

impl Names {
    fn new() -> Self {
        Names {
            bytes: [0; 65537],
            length: 0,
        }
    }

    fn table(&self) -> &[u8] {
        self.bytes.get(..self.length).unwrap_or(&[])
    }

    // One more byte, if there is room for it.
    fn push(&mut self, byte: u8) {
        if let Some(place) = self.bytes.get_mut(self.length) {
            *place = byte;
            self.length += 1;
        }
    }

    // One more name of this length: two bytes that count, and the letter a.
    fn put(&mut self, number: usize, length: u8) {
        self.push(length);
        self.push(32 + (number / 90 % 90) as u8);
        self.push(32 + (number % 90) as u8);
        for _ in 2..length {
            self.push(b'a');
        }
    }

    // So many names of this length, in their order, and no others.
    fn fill(&mut self, count: usize, length: u8) {
        self.length = 0;
        for number in 0..count {
            self.put(number, length);
        }
    }
}

// Number 1: a table of 4,096 names is taken, and one of 4,097 is not; nor is a byte 127, a name of no byte, or a name twice.
fn tables(rt: &impl Print) -> io::Result<()> {
    let words = &mut [0; 8];
    let starts = &mut [0; 4];
    let arena = &mut Arena::new(words, starts);
    let names = &mut Names::new();
    let none = counters(0, 0);
    let one = counters(1, 2);
    let node = [head(Head::TY_VAR, 1), 7];
    names.fill(4096, 2);
    try_intern(rt, "4096 names", names.table(), arena, none, &node)?;
    names.fill(4097, 2);
    try_intern(rt, "4097 names", names.table(), arena, one, &node)?;
    try_intern(rt, "byte 127", &[1, 127], arena, none, &node)?;
    try_intern(rt, "byte 126", &[1, 126], arena, one, &node)?;
    try_intern(rt, "empty name", &[0], arena, none, &node)?;
    try_intern(rt, "name twice", &[1, 97, 1, 97], arena, none, &node)
}

// Number 1 by bytes: 1,008 names of 64 bytes and one of 15 fill a table, and one of 16 is a byte too much.
fn longest_tables(rt: &impl Print) -> io::Result<()> {
    let words = &mut [0; 8];
    let starts = &mut [0; 4];
    let arena = &mut Arena::new(words, starts);
    let names = &mut Names::new();
    let node = [head(Head::TY_VAR, 1), 7];
    names.fill(1008, 64);
    names.put(1008, 15);
    let none = counters(0, 0);
    try_intern(rt, "65536 bytes", names.table(), arena, none, &node)?;
    names.fill(1008, 64);
    names.put(1008, 16);
    let one = counters(1, 2);
    try_intern(rt, "65537 bytes", names.table(), arena, one, &node)
}

// Number 2: counters that memory doesn't hold, a word left over, lent words over the limit.
fn arenas(rt: &impl Print) -> io::Result<()> {
    let node = [head(Head::TY_VAR, 1), 7];
    let words = &mut [0; 8];
    let starts = &mut [0; 4];
    let arena = &mut Arena::new(words, starts);
    put_vars(arena, 2);
    try_intern(rt, "two variables", &[], arena, counters(2, 4), &node)?;
    try_intern(rt, "stale counters", &[], arena, counters(2, 4), &node)?;
    let words = &mut [0; 16385];
    let starts = &mut [0; 1];
    let over = &mut Arena::new(words, starts);
    try_intern(rt, "16385 words", &[], over, counters(0, 0), &node)?;
    let words = &mut [0; 16384];
    let most = &mut Arena::new(words, starts);
    try_intern(rt, "16384 words", &[], most, counters(0, 0), &node)
}

// Numbers 3 and 4, in an arena of two variables.
fn faults(rt: &impl Print) -> io::Result<()> {
    let words = &mut [0; 80];
    let starts = &mut [0; 8];
    let arena = &mut Arena::new(words, starts);
    put_vars(arena, 2);
    let table = [1, 97, 1, 98];
    let mut over = [0; 66];
    over[0] = head(Head::UNION, 65);
    try_intern(rt, "65 members", &table, arena, counters(2, 4), &over)?;
    let mut most = [0; 65];
    most[0] = head(Head::UNION, 64);
    try_intern(rt, "64 members", &table, arena, counters(2, 4), &most)?;
    let c = counters(3, 69);
    try_intern(rt, "no word", &table, arena, c, &[])?;
    let code = [head(Head::PRIMITIVE, 1), 8];
    try_intern(rt, "code 8", &table, arena, c, &code)?;
    let own = [head(Head::LIST, 1), 3];
    try_intern(rt, "child 3 of 3", &table, arena, c, &own)?;
    let lower = [head(Head::LIST, 1), 2];
    try_intern(rt, "child 2 of 3", &table, arena, c, &lower)?;
    name_faults(rt, &table, arena)
}

// Number 5, in the arena that `faults` leaves.
fn name_faults(rt: &impl Print, table: &[u8], arena: &mut Arena<'_>) -> io::Result<()> {
    let set = head(Head::ATTR_SET, 2);
    let a = field_word(false, 0, 0);
    let b = field_word(true, 1, 1);
    let c = counters(4, 71);
    try_intern(rt, "names fall", table, arena, c, &[set, b, a])?;
    try_intern(rt, "names repeat", table, arena, c, &[set, b, b])?;
    try_intern(rt, "names rise", table, arena, c, &[set, a, b])
}

// Name 4,095 is in a table of 4,096 names, and not in one of 4,095.
fn last_name(rt: &impl Print) -> io::Result<()> {
    let words = &mut [0; 8];
    let starts = &mut [0; 4];
    let arena = &mut Arena::new(words, starts);
    put_vars(arena, 1);
    let names = &mut Names::new();
    let c = counters(1, 2);
    let node = [head(Head::NAMED, 1), field_word(false, 4095, 0)];
    names.fill(4095, 2);
    try_intern(rt, "name 4095 of 4095", names.table(), arena, c, &node)?;
    names.fill(4096, 2);
    try_intern(rt, "name 4095 of 4096", names.table(), arena, c, &node)
}

// Number 7 by starts: node number 4095 is the last; one more is refused, but a stored one is still found.
fn most_nodes(rt: &impl Print) -> io::Result<()> {
    let words = &mut [0; WORDS];
    let starts = &mut [0; NODES];
    let arena = &mut Arena::new(words, starts);
    put_vars(arena, 4095);
    let top = head(Head::TY_VAR, 1);
    let c = counters(4095, 8190);
    let full = counters(4096, 8192);
    try_intern(rt, "node 4096", &[], arena, c, &[top, 4095])?;
    try_intern(rt, "node 4097", &[], arena, full, &[top, 4096])?;
    try_intern(rt, "node 17 again", &[], arena, full, &[top, 17])
}

// Number 7 by words: the last union ends with word 16,384; one word more is refused, but a stored node is still found.
fn most_words(rt: &impl Print) -> io::Result<()> {
    let words = &mut [0; WORDS];
    let starts = &mut [0; NODES];
    let arena = &mut Arena::new(words, starts);
    put_vars(arena, 2);
    for pattern in 0..251 {
        arena.put(Head::UNION, &members(pattern));
    }
    let mut last = [head(Head::UNION, 64); 65];
    last[1..].copy_from_slice(&members(251));
    let full = counters(254, 16384);
    try_intern(rt, "word 16384", &[], arena, counters(253, 16319), &last)?;
    let top = [head(Head::TOP, 0)];
    try_intern(rt, "word 16385", &[], arena, full, &top)?;
    try_intern(rt, "last union again", &[], arena, full, &last)
}

fn main(rt: HostRuntime) -> io::Result<()> {
    tables(&rt)?;
    longest_tables(&rt)?;
    arenas(&rt)?;
    faults(&rt)?;
    last_name(&rt)?;
    most_nodes(&rt)?;
    most_words(&rt)
}
