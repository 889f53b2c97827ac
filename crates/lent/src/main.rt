// The same nodes interned with the counters by value, lent as a struct, and lent as two numbers: three times the same lines. A
// line is the answer, then the counters after.
#![tactic(auto)]

use answer_writing::answer::Answer;
use arena::intern;
use deep_types::head;
use lent_counters::{intern_lent, intern_lent_pair};
use std::io;
use types::arc_ty::Head;
use types::attrset::field_word;
use types::{Counters, Refusal};

// What a call answered, and the counters after.
#[derive(Clone, Copy)]
struct Left {
    stored: Result<u32, Refusal>,
    counters: Counters,
}

fn by_value(
    table: &[u8],
    words: &mut [u32],
    starts: &mut [u32],
    c: Counters,
    node: &[u32],
) -> Left {
    let answer = intern(table, words, starts, c, node);
    Left {
        stored: answer.map(|(n, _)| n),
        counters: answer.map_or(c, |(_, after)| after),
    }
}

fn by_struct(
    table: &[u8],
    words: &mut [u32],
    starts: &mut [u32],
    c: Counters,
    node: &[u32],
) -> Left {
    let mut counters = c;
    let stored = intern_lent(table, words, starts, &mut counters, node);
    Left { stored, counters }
}

fn by_pair(table: &[u8], words: &mut [u32], starts: &mut [u32], c: Counters, node: &[u32]) -> Left {
    let mut nodes = c.nodes;
    let mut used = c.words;
    let stored = intern_lent_pair(table, words, starts, &mut nodes, &mut used, node);
    Left {
        stored,
        counters: Counters { nodes, words: used },
    }
}

// Prints a line, and hands the counters on.
fn tell(rt: &impl Print, label: &str, left: Left) -> io::Result<Counters> {
    let c = left.counters;
    println!(rt; "{label}: {}, {} {}", Answer(left.stored), c.nodes, c.words)?;
    Ok(c)
}

// Nodes that are added, one that is found, and for each number that `intern` can answer a call that is refused by it.
fn run<F: Fn(&[u8], &mut [u32], &mut [u32], Counters, &[u32]) -> Left>(
    rt: &impl Print,
    store: F,
) -> io::Result<()>
    requires { F.IsAlwaysCallable store }
{
    let table = [1u8, 97, 1, 98];
    let words = &mut [0u32; 9];
    let starts = &mut [0u32; 4];
    let var = [head(Head::TY_VAR, 1), 0];
    let int = [head(Head::PRIMITIVE, 1), 2];
    let union = [head(Head::UNION, 2), 0, 1];
    let none = Counters { nodes: 0, words: 0 };
    let one = tell(rt, "a", store(&table, words, starts, none, &var))?;
    let two = tell(rt, "int", store(&table, words, starts, one, &int))?;
    let same = tell(rt, "a again", store(&table, words, starts, two, &var))?;
    let c = tell(rt, "a | int", store(&table, words, starts, same, &union))?;
    let twice = [1u8, 97, 1, 97];
    tell(rt, "name twice", store(&twice, words, starts, c, &var))?;
    let before = Counters { nodes: 2, words: 4 };
    tell(
        rt,
        "stale counters",
        store(&table, words, starts, before, &var),
    )?;
    tell(rt, "no word", store(&table, words, starts, c, &[]))?;
    let own = [head(Head::NEG, 1), 3];
    tell(rt, "child 3 of 3", store(&table, words, starts, c, &own))?;
    let a = field_word(false, 0, 0);
    let set = [head(Head::ATTR_SET, 2), a, a];
    tell(rt, "field twice", store(&table, words, starts, c, &set))?;
    let lambda = [head(Head::LAMBDA, 2), 0, 1];
    tell(rt, "no room", store(&table, words, starts, c, &lambda))?;
    Ok(())
}

fn main(rt: HostRuntime) -> io::Result<()> {
    println!(rt; "by value")?;
    run(&rt, by_value)?;
    println!(rt; "lent as a struct")?;
    run(&rt, by_struct)?;
    println!(rt; "lent as two numbers")?;
    run(&rt, by_pair)
}
