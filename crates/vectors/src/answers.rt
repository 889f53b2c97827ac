// The line of each call.
use crate::call::{Call, SHEET};
use answer_writing::answer::{Answer, Both, Good, stored};
use answer_writing::memory::{put_bytes, put_memory};
use arena::intern;
use case_reading::case::{Host, Lent, Memory};
use case_reading::memory::{Room, WORDS, load};
use compact::compact;
use renumber::{normalize_replacing_unknown, normalize_vars};
use set_ops::normalize_set_ops;
use sheet_converting::convert_sheet;
use sheet_format::sheet_line;
use simplify::{Simplified, simplify};
use std::alloc::{AllocError, Global};
use std::fmt::Display;
use std::io;
use std::io::Write;
use types::{Counters, Refusal};

// The memory that every case uses in turn. A node that is to be stored lies in the words of the target, which the call has no other
// use for.
#[derive(Drop)]
pub struct Rooms {
    room: Room,
    target: Room,
}

impl Rooms {
    pub fn new(alloc: Global) -> Result<Self, AllocError> {
        Ok(Rooms {
            room: Room {
                words: vec![in alloc; 0; WORDS]?,
                starts: vec![in alloc; 0; WORDS]?,
            },
            target: Room {
                words: vec![in alloc; 0; WORDS]?,
                starts: vec![in alloc; 0; WORDS]?,
            },
        })
    }
}

// What a call answered that changes one arena, and the memory as it leaves it.
fn change<
    T: Display + Drop,
    W: Write,
    F: FnOnce(&[u8], &mut [u32], &mut [u32], Counters) -> Result<T, Refusal>,
>(out: &mut W, room: &mut Room, host: Host<'_>, call: F) -> io::Result<()>
    requires { F.IsAlwaysCallable call }
{
    let words = load(&mut room.words, host.memory.words);
    let starts = load(&mut room.starts, host.memory.starts);
    let answer = call(host.table, words, starts, host.memory.counters);
    write!(out, "{}", Answer(answer.map(Good)))?;
    put_memory(out, words, starts)?;
    writeln!(out)
}

// The root after, the passes made and the counters.
fn told(after: Simplified) -> Both<u32, Both<u32, Both<usize, usize>>> {
    Both(after.root, stored((after.passes, after.counters)))
}

// A type copied into a second arena; the counters of that are part of every answer.
fn put_copy<W: Write>(
    out: &mut W,
    rooms: &mut Rooms,
    host: Host<'_>,
    root: u32,
    target: Memory<'_>,
) -> io::Result<()> {
    let room = &mut rooms.room;
    let other = &mut rooms.target;
    let words = load(&mut room.words, host.memory.words);
    let starts = load(&mut room.starts, host.memory.starts);
    let target_words = load(&mut other.words, target.words);
    let target_starts = load(&mut other.starts, target.starts);
    let r = compact(
        host.table,
        words,
        starts,
        host.memory.counters,
        root,
        target_words,
        target_starts,
        target.counters,
    );
    let c = r.counters;
    write!(
        out,
        "{} {} {}",
        Answer(r.answer.map(Good)),
        c.nodes,
        c.words
    )?;
    put_memory(out, target_words, target_starts)?;
    writeln!(out)
}

// The line of a sheet, with its end.
fn put_line<W: Write>(out: &mut W, sheet: &[u8]) -> io::Result<()> {
    // An array, as `sheet_line` takes it.
    let mut line = [0u8; 65544];
    let count = sheet_line(sheet, &mut line);
    out.write_all(line.get(..count).unwrap_or(&[]))
}

// What the converter answered, the bytes that it left and, where they are a sheet, its line.
fn put_converted<W: Write>(out: &mut W, old: &[u8]) -> io::Result<()> {
    let mut bytes = [0u8; SHEET];
    let count = old.len().min(SHEET);
    let sheet = &mut bytes[..count];
    sheet.copy_from_slice(&old[..count]);
    match convert_sheet(sheet) {
        Ok(()) => {
            write!(out, "ok")?;
            put_bytes(out, sheet)?;
            write!(out, " ")?;
            put_line(out, sheet)
        }
        Err(refusal) => {
            write!(out, "refused {}", refusal.number())?;
            put_bytes(out, sheet)?;
            writeln!(out)
        }
    }
}

// What `intern` answered, and the memory as it leaves it.
fn put_stored<W: Write>(
    out: &mut W,
    rooms: &mut Rooms,
    host: Host<'_>,
    node: Lent<'_>,
) -> io::Result<()> {
    let target = &mut rooms.target;
    let node = &*load(&mut target.words, node);
    change(out, &mut rooms.room, host, |table, words, starts, c| {
        intern(table, words, starts, c, node).map(stored)
    })
}

// The line of a call, with its end.
pub fn answer<W: Write>(call: Call<'_>, rooms: &mut Rooms, out: &mut W) -> io::Result<()> {
    let room = &mut rooms.room;
    match call {
        Call::Intern(host, node) => put_stored(out, rooms, host, node),
        Call::Simplify(host, root) => change(out, room, host, |table, words, starts, c| {
            simplify(table, words, starts, c, root).map(told)
        }),
        Call::SheetLine(sheet) => put_line(out, sheet),
        Call::NormalizeVars(host, root) => change(out, room, host, |table, words, starts, c| {
            normalize_vars(table, words, starts, c, root).map(stored)
        }),
        Call::NormalizeReplacingUnknown(host, root) => change(
            out,
            room,
            host,
            |table, words, starts, c| {
                normalize_replacing_unknown(table, words, starts, c, root).map(stored)
            },
        ),
        Call::NormalizeSetOps(host, root) => change(out, room, host, |table, words, starts, c| {
            normalize_set_ops(table, words, starts, c, root).map(stored)
        }),
        Call::Compact(host, root, target) => put_copy(out, rooms, host, root, target),
        Call::ConvertSheet(old) => put_converted(out, old),
    }
}
