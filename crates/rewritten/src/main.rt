// The calls that renumber, sort, copy, compare and import, on types that are deep or have a node at very many places. It prints a line
// a call. What it must print was made by the Rust (compare/reference/src/bin/rewritten.rs).
#![tactic(auto)]

use answer_writing::answer::{Answer, Good, stored, tell, yes};
use compact::compact;
use deep_types::{Arena, Chain, NODES, TABLE, WORDS, chains};
use equal::structurally_eq;
use import::import_from_arena;
use renumber::{normalize_replacing_unknown, normalize_vars};
use set_ops::normalize_set_ops;
use std::io;
use types::{Counters, Refusal};

// The newest node of a chain.
const ROOT: u32 = 4095;

// What a call answered, behind the type and the call, which are written before it.
fn answered(rt: &impl Print, answer: Result<(u32, Counters), Refusal>) -> io::Result<()> {
    println!(rt; "{}", Answer(answer.map(stored).map(Good)))
}

// A call that changes its arena, on a chain.
fn change<
    F: FnOnce(&[u8], &mut [u32], &mut [u32], Counters, u32) -> Result<(u32, Counters), Refusal>,
>(rt: &impl Print, shape: &str, arena: Arena<'_>, call: &str, normalize: F) -> io::Result<()>
    requires { F.IsAlwaysCallable normalize }
{
    print!(rt; "{shape}, {call}: ")?;
    let Arena {
        words,
        starts,
        counters,
    } = arena;
    answered(rt, normalize(&TABLE, words, starts, counters, ROOT))
}

// The chain copied into an arena without nodes.
fn copy(rt: &impl Print, shape: &str, arena: &Arena<'_>, other: &mut Arena<'_>) -> io::Result<()> {
    print!(rt; "{shape}, compact: ")?;
    let c = other.counters;
    let r = compact(
        &TABLE,
        arena.words,
        arena.starts,
        arena.counters,
        ROOT,
        other.words,
        other.starts,
        c,
    );
    other.counters = r.counters;
    answered(rt, r.answer.map(|root| (root, r.counters)))
}

// The newest node of an arena beside one of the other.
fn compare(
    rt: &impl Print,
    shape: &str,
    call: &str,
    arena: &Arena<'_>,
    other: &Arena<'_>,
    root: u32,
) -> io::Result<()> {
    let answer = structurally_eq(
        &TABLE,
        arena.words,
        arena.starts,
        arena.counters,
        ROOT,
        &TABLE,
        other.words,
        other.starts,
        other.counters,
        root,
    );
    tell(rt, shape, call, answer.map(yes))
}

// The chain imported into another arena under the same names.
fn import(
    rt: &impl Print,
    shape: &str,
    call: &str,
    arena: &Arena<'_>,
    target: &mut Arena<'_>,
) -> io::Result<()> {
    print!(rt; "{shape}, {call}: ")?;
    let c = target.counters;
    let answer = import_from_arena(
        &TABLE,
        arena.words,
        arena.starts,
        arena.counters,
        ROOT,
        &TABLE,
        target.words,
        target.starts,
        c,
    );
    if let Ok((_, after)) = answer {
        target.counters = after;
    }
    answered(rt, answer)
}

// The calls that change their arena, on a chain each.
fn change_each(rt: &impl Print, chain: Chain) -> io::Result<()> {
    let shape = chain.name;
    let words = &mut [0; WORDS];
    let starts = &mut [0; NODES];
    let arena = chain.arena(words, starts);
    change(rt, shape, arena, "normalize_vars", normalize_vars)?;
    let arena = chain.arena(words, starts);
    change(
        rt,
        shape,
        arena,
        "normalize_replacing_unknown",
        normalize_replacing_unknown,
    )?;
    let arena = chain.arena(words, starts);
    change(rt, shape, arena, "normalize_set_ops", normalize_set_ops)
}

// The calls that read one arena and another, on a chain and a copy of it.
fn call_between(rt: &impl Print, chain: Chain) -> io::Result<()> {
    let shape = chain.name;
    let words = &mut [0; WORDS];
    let starts = &mut [0; NODES];
    let arena = chain.arena(words, starts);
    let words = &mut [0; WORDS];
    let starts = &mut [0; NODES];
    let mut other = Arena::new(words, starts);
    copy(rt, shape, &arena, &mut other)?;
    compare(rt, shape, "structurally_eq", &arena, &other, ROOT)?;
    let call = "structurally_eq of the node before";
    compare(rt, shape, call, &arena, &other, ROOT - 1)
}

// A chain imported into an arena without nodes, and once more into what that left.
fn import_twice(rt: &impl Print, chain: Chain) -> io::Result<()> {
    let shape = chain.name;
    let words = &mut [0; WORDS];
    let starts = &mut [0; NODES];
    let arena = chain.arena(words, starts);
    let words = &mut [0; WORDS];
    let starts = &mut [0; NODES];
    let mut target = Arena::new(words, starts);
    import(rt, shape, "import_from_arena", &arena, &mut target)?;
    let call = "import_from_arena once more";
    import(rt, shape, call, &arena, &mut target)
}

fn main(rt: HostRuntime) -> io::Result<()> {
    for chain in chains() {
        change_each(&rt, chain)?;
        call_between(&rt, chain)?;
        import_twice(&rt, chain)?;
    }
    Ok(())
}
