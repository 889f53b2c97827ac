// What each call answers.
use crate::call::{Call, TEXT, Type};
use crate::texts::{UNTOUCHED, put_written};
use answer_writing::answer::{Answer, Both, Good, yes};
use answer_writing::memory::put_list;
use case_reading::memory::{Room, WORDS, load};
use display::{display, display_nix};
use equal::structurally_eq;
use free_vars::free_type_vars;
use name_lookup::{Position, find_name};
use names::{Stretch, check_names, name_stretch};
use questions::lambdas::has_shared_tyvar_across_lambda_params;
use questions::named::unwrap_named;
use questions::vars::{contains_bare_tyvar, has_type_vars, needs_var_normalization};
use sheet_writing::write_sheet;
use std::alloc::{AllocError, Global};
use std::fmt::Display;
use std::io;
use std::io::Write;
use types::arc_ty::tyvar_name;
use types::{Counters, Ordering, Refusal};
use walks::reach::count_reachable;

// The memory that every case uses in turn.
#[derive(Drop)]
pub struct Rooms {
    pub room: Room,
    other: Room,
    pub text: Vec<u8>,
}

impl Rooms {
    pub fn new(alloc: Global) -> Result<Self, AllocError> {
        Ok(Rooms {
            room: Room {
                words: vec![in alloc; 0; WORDS]?,
                starts: vec![in alloc; 0; WORDS]?,
            },
            other: Room {
                words: vec![in alloc; 0; WORDS]?,
                starts: vec![in alloc; 0; WORDS]?,
            },
            text: vec![in alloc; 0; TEXT]?,
        })
    }
}

// A variable's name.
fn put_tyvar<W: Write>(out: &mut W, index: u32) -> io::Result<()> {
    let name = tyvar_name(index);
    let bytes = name.bytes;
    out.write_all(bytes.get(..name.len).unwrap_or(&bytes))
}

// How two names or nodes stand.
fn order_word(order: Ordering) -> &'static str {
    match order {
        Ordering::Less => "before",
        Ordering::Equal => "same",
        Ordering::Greater => "after",
    }
}

// What a call answered.
fn put_answer<T: Display + Drop, W: Write>(
    out: &mut W,
    answer: Result<T, Refusal>,
) -> io::Result<()> {
    write!(out, "{}", Answer(answer))
}

// Where the text of a name lies, and how long it is.
fn stretch(text: Stretch) -> Good<Both<usize, usize>> {
    Good(Both(text.start, text.length))
}

// Whether a text is a name of a table, and which, or how many names come before it.
fn found(position: Position) -> Both<&'static str, u32> {
    let word = if position.found { "found" } else { "absent" };
    Both(word, position.place)
}

// The free variables of a type: how many there are, and these. The answer's 16 KiB stay where the call leaves them.
#[inline(never)]
fn put_variables<W: Write>(out: &mut W, room: &mut Room, t: Type<'_>) -> io::Result<()> {
    let memory = t.host.memory;
    let words = load(&mut room.words, memory.words);
    let starts = load(&mut room.starts, memory.starts);
    let answer = free_type_vars(t.host.table, words, starts, memory.counters, t.root);
    match &answer {
        Ok(list) => {
            write!(out, "{}", Good(list.count))?;
            put_list(out, &list.vars, list.count)
        }
        Err(refusal) => write!(out, "{}", Answer::<u32>(Err(*refusal))),
    }
}

// What a question about a type is answered.
fn ask<T, F: FnOnce(&[u8], &[u32], &[u32], Counters, u32) -> Result<T, Refusal>>(
    room: &mut Room,
    t: Type<'_>,
    question: F,
) -> Result<T, Refusal>
    requires { F.IsAlwaysCallable question }
{
    let memory = t.host.memory;
    let words = load(&mut room.words, memory.words);
    let starts = load(&mut room.starts, memory.starts);
    question(t.host.table, words, starts, memory.counters, t.root)
}

// The answer yes or no to a question about a type.
fn decide<W: Write, F: FnOnce(&[u8], &[u32], &[u32], Counters, u32) -> Result<bool, Refusal>>(
    out: &mut W,
    room: &mut Room,
    t: Type<'_>,
    question: F,
) -> io::Result<()>
    requires { F.IsAlwaysCallable question }
{
    put_answer(out, ask(room, t, question).map(yes))
}

// Whether two types are structurally equal.
fn equal(rooms: &mut Rooms, t: Type<'_>, other: Type<'_>) -> Result<bool, Refusal> {
    let room = &mut rooms.room;
    let words = load(&mut room.words, t.host.memory.words);
    let starts = load(&mut room.starts, t.host.memory.starts);
    let room = &mut rooms.other;
    let other_words = load(&mut room.words, other.host.memory.words);
    let other_starts = load(&mut room.starts, other.host.memory.starts);
    structurally_eq(
        t.host.table,
        words,
        starts,
        t.host.memory.counters,
        t.root,
        other.host.table,
        other_words,
        other_starts,
        other.host.memory.counters,
        other.root,
    )
}

// How the node of a type stands to another node in the same memory.
fn put_node_order<W: Write>(
    out: &mut W,
    room: &mut Room,
    t: Type<'_>,
    other: u32,
) -> io::Result<()> {
    let order = ask(room, t, |table, words, starts, c, root| {
        arena::compare(table, words, starts, c, root, other)
    });
    put_answer(out, order.map(order_word))
}

// The line of a call, without its end.
pub fn answer<W: Write>(call: Call<'_>, rooms: &mut Rooms, out: &mut W) -> io::Result<()> {
    let room = &mut rooms.room;
    match call {
        Call::TyvarName(index) => put_tyvar(out, index),
        Call::CompareNodes(t, other) => put_node_order(out, room, t, other),
        Call::Display(t, lent) => put_written(out, rooms, t, lent, 0, display),
        Call::CheckNames(table) => put_answer(out, check_names(table).map(Good)),
        Call::CompareNames(a, b) => write!(out, "{}", order_word(names::compare(a, b))),
        Call::FreeTypeVars(t) => put_variables(out, room, t),
        Call::NeedsVarNormalization(t) => decide(out, room, t, needs_var_normalization),
        Call::HasTypeVars(t) => decide(out, room, t, has_type_vars),
        Call::ContainsBareTyvar(t) => decide(out, room, t, contains_bare_tyvar),
        Call::HasSharedTyvarAcrossLambdaParams(t) => decide(
            out,
            room,
            t,
            has_shared_tyvar_across_lambda_params,
        ),
        Call::UnwrapNamed(t) => put_answer(out, ask(room, t, unwrap_named).map(Good)),
        Call::StructurallyEq(t, other) => put_answer(out, equal(rooms, t, other).map(yes)),
        Call::CountReachable(t) => put_answer(out, ask(room, t, count_reachable).map(Good)),
        Call::WriteSheet(t, lent) => put_written(out, rooms, t, lent, UNTOUCHED, write_sheet),
        Call::NameStretch(table, number) => put_answer(
            out,
            name_stretch(table, number).map(stretch),
        ),
        Call::DisplayNix(t, lent) => put_written(out, rooms, t, lent, 0, display_nix),
        Call::FindName(table, text) => put_answer(out, find_name(table, text).map(found)),
    }
}
