// `simplify`, `display` and every question, on types that are deep or have a node at very many places, and on a pair of
// sets. It prints a line a call. What it must print was made by the Rust (compare/reference/src/bin/walked.rs).
#![tactic(auto)]

use answer_writing::answer::{Both, Good, stored, tell, yes};
use deep_types::{Arena, NODES, TABLE, WORDS, chains};
use display::display;
use free_vars::{VarList, free_type_vars};
use questions::lambdas::has_shared_tyvar_across_lambda_params;
use questions::named::unwrap_named;
use questions::vars::{contains_bare_tyvar, has_type_vars, needs_var_normalization};
use simplify::{Simplified, simplify};
use std::io;
use std::io::Write;
use types::Refusal;
use walks::reach::count_reachable;

// The questions that are answered in one word or number.
fn ask(rt: &impl Print, shape: &str, arena: &Arena<'_>, root: u32) -> io::Result<()> {
    tell(
        rt,
        shape,
        "has_type_vars",
        arena.ask(root, has_type_vars).map(yes),
    )?;
    let answer = arena.ask(root, contains_bare_tyvar).map(yes);
    tell(rt, shape, "contains_bare_tyvar", answer)?;
    let answer = arena
        .ask(root, has_shared_tyvar_across_lambda_params)
        .map(yes);
    tell(rt, shape, "has_shared_tyvar_across_lambda_params", answer)?;
    let answer = arena.ask(root, needs_var_normalization).map(yes);
    tell(rt, shape, "needs_var_normalization", answer)?;
    tell(
        rt,
        shape,
        "unwrap_named",
        arena.ask(root, unwrap_named).map(Good),
    )?;
    tell(
        rt,
        shape,
        "count_reachable",
        arena.ask(root, count_reachable).map(Good),
    )
}

// How many variables there are, and their indexes.
fn list(rt: &impl Print, shape: &str, answer: Result<VarList, Refusal>) -> io::Result<()> {
    let call = "free_type_vars";
    match answer {
        Ok(list) => {
            print!(rt; "{shape}, {call}: ok {}", list.count)?;
            for var in list.vars.iter().take(list.count) {
                print!(rt; " {var:x}")?;
            }
            println!(rt; "")
        }
        Err(refusal) => tell::<u32>(rt, shape, call, Err(refusal)),
    }
}

// The length of the text, and how it begins.
fn print(rt: &impl Print, shape: &str, arena: &Arena<'_>, root: u32) -> io::Result<()> {
    let call = "display";
    let mut text = [0u8; 65536];
    let answer = display(
        &TABLE,
        arena.words,
        arena.starts,
        arena.counters,
        root,
        &mut text,
    );
    match answer {
        Ok(length) => {
            print!(rt; "{shape}, {call}: ok {length} ")?;
            let front = text.get(..length.min(20)).unwrap_or(&[]);
            io::writer(rt).write_all(front)?;
            println!(rt; "")
        }
        Err(refusal) => tell::<u32>(rt, shape, call, Err(refusal)),
    }
}

// The root after, the passes made and the counters.
fn told(after: Simplified) -> Good<Both<u32, Both<u32, Both<usize, usize>>>> {
    Good(Both(after.root, stored((after.passes, after.counters))))
}

// All calls; the one that changes memory comes last.
fn ask_all(rt: &impl Print, shape: &str, arena: Arena<'_>, root: u32) -> io::Result<()> {
    ask(rt, shape, &arena, root)?;
    list(rt, shape, arena.ask(root, free_type_vars))?;
    print(rt, shape, &arena, root)?;
    let Arena {
        words,
        starts,
        counters,
    } = arena;
    let answer = simplify(&TABLE, words, starts, counters, root);
    tell(rt, shape, "simplify", answer.map(told))
}

fn main(rt: HostRuntime) -> io::Result<()> {
    let words = &mut [0; WORDS];
    let starts = &mut [0; NODES];
    for chain in chains() {
        ask_all(&rt, chain.name, chain.arena(words, starts), 4095)?;
    }
    ask_all(&rt, "one lambda twice", Arena::pair(words, starts, 3), 5)?;
    ask_all(&rt, "two lambdas", Arena::pair(words, starts, 4), 5)
}
