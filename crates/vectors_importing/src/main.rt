// Answers cases of `import_from_arena` from standard input, one line each, until the input ends: what the library says, to be held
// against what the Rust says of the same cases. A case is a byte that names the call, and its arguments.
#![tactic(auto)]

use answer_writing::answer::{Answer, Good, stored};
use answer_writing::memory::put_memory;
use case_reading::case::{Case, Host};
use case_reading::input::{BUFFER, answer_all};
use case_reading::memory::{Room, WORDS, load};
use import::import_from_arena;
use std::io;
use std::io::{BufWriter, Write};

// What `import_from_arena` is given: a host, the root of a type, and the host of the target.
#[derive(Clone, Copy)]
struct Import<'a> {
    source: Host<'a>,
    root: u32,
    target: Host<'a>,
}

// The call that a case has; none where the case isn't there whole, or names another call.
fn read<'a>(case: &mut Case<'a>) -> Option<Import<'a>> {
    if case.byte()? != 26 {
        return None;
    }
    Some(Import {
        source: case.host()?,
        root: case.word()?,
        target: case.host()?,
    })
}

// What the call answers, and the target's memory as it leaves it.
fn answer<W: Write>(
    import: Import<'_>,
    source: &mut Room,
    target: &mut Room,
    out: &mut W,
) -> io::Result<()> {
    let lent = import.source.memory;
    let words = load(&mut source.words, lent.words);
    let starts = load(&mut source.starts, lent.starts);
    let lent = import.target.memory;
    let target_words = load(&mut target.words, lent.words);
    let target_starts = load(&mut target.starts, lent.starts);
    let answer = import_from_arena(
        import.source.table,
        words,
        starts,
        import.source.memory.counters,
        import.root,
        import.target.table,
        target_words,
        target_starts,
        import.target.memory.counters,
    );
    write!(out, "{}", Answer(answer.map(stored).map(Good)))?;
    put_memory(out, target_words, target_starts)?;
    writeln!(out)
}

// The memory that every case uses in turn.
fn main(rt: HostRuntime) -> io::Result<()> {
    let mut buffer = vec![in rt.alloc(); 0u8; BUFFER]?;
    let mut source = Room {
        words: vec![in rt.alloc(); 0; WORDS]?,
        starts: vec![in rt.alloc(); 0; WORDS]?,
    };
    let mut target = Room {
        words: vec![in rt.alloc(); 0; WORDS]?,
        starts: vec![in rt.alloc(); 0; WORDS]?,
    };
    let mut out = BufWriter::new(rt.alloc(), io::writer(&rt))?;
    answer_all(&mut rt.reader(), &mut buffer, &mut out, |unused, out| {
        let mut case = Case::new(unused);
        let Some(import) = read(&mut case) else {
            return Ok(None);
        };
        answer(import, &mut source, &mut target, out)?;
        Ok(Some(case.left()))
    })
}
