// Whether lent memory holds an arena: `judge` is the first step of every call that is lent one.
#![tactic(auto)]

ghost use Rattle.std.specs.Prelude.{◌≡◌};
ghost use Rattle.types.specs.Node.{below};
ghost use Rattle.soundness.specs.Inner.Sound.{is_sound, Limits, Within, lent_reply};
ghost use Rattle.soundness.specs.Inner.Zero.{Alike, four_zero};
ghost use Rattle.soundness.specs.Inner.Reading.{Marked, Next, NextSets};

use names::check_names;
use node_faults::check_node;
use node_filter::{find_filtered, hash, set_bits};
use types::arc_ty::{Head, wide};
use types::{Counters, Refusal};

// Whether every word is zero. No word ends the loop early, so that the compiler can take several in a turn.
fn few_zero(words: &[u32]) -> bool
    ensures { result ≡ below 1 words.now }
{
    let mut ones = 0;
    for word in words {
        ones |= *word;
    }
    ones == 0
}

// The same of four stretches of one length, in one loop: the compiler then has four to take in turn.
fn four_zero(a: &[u32], b: &[u32], c: &[u32], d: &[u32]) -> bool
    requires { Alike a.now b.now c.now d.now }
    ensures { result ≡ four_zero a.now b.now c.now d.now }
{
    let mut ones = 0;
    for i in 0..a.len() {
        ones = ones | a[i] | b[i] | c[i] | d[i];
    }
    ones == 0
}

// The same of many words: four quarters, and the few that are left.
fn all_zero(words: &[u32]) -> bool
    ensures { result ≡ below 1 words.now }
{
    let q = words.len() / 4;
    let b = &words[q..];
    let c = &b[q..];
    let d = &c[q..];
    four_zero(&words[..q], &b[..q], &c[..q], &d[..q]) & few_zero(&d[q..])
}

// Whether lent memory keeps the limits, and what is unused in it is zero.
fn within(words: &[u32], starts: &[u32], c: Counters) -> bool
    ensures { Within words.now starts.now c result }
{
    let nodes = c.nodes;
    let used = c.words;
    if words.len() > 16384 {
        return false;
    }
    if starts.len() > 4096 {
        return false;
    }
    if used > words.len() {
        return false;
    }
    if nodes > starts.len() {
        return false;
    }
    if !all_zero(&words[used..]) {
        return false;
    }
    all_zero(&starts[nodes..])
}

// How many words the node takes that begins at `at` and may follow the n nodes before it, which are in the filter, as it is then.
fn next_node(
    words: &[u32],
    starts: &[u32],
    c: Counters,
    names: usize,
    n: usize,
    at: usize,
    filter: &mut [u64; 2048],
) -> Option<usize>
    requires { Marked names words.now starts.now c n at filter.old }
    ensures next { Next names words.now starts.now c n at result }
    ensures next_sets { NextSets words.now at filter.old result filter.new }
{
    let used = c.words;
    if at >= used {
        return None;
    }
    let head = Head { word: words[at] };
    let len = 1 + head.count();
    if used - at < len {
        return None;
    }
    let end = at + len;
    let node = &words[at..end];
    if check_node(node, n, names).is_err() {
        return None;
    }
    let older = Counters {
        nodes: n,
        words: at,
    };
    let h = hash(node);
    if let Some(_) = find_filtered(&words[..at], &starts[..n], older, node, h, filter) {
        return None;
    }
    set_bits(filter, h);
    Some(len)
}

// Whether the words in use are nodes without gap, each where its start says.
fn nodes_sound(words: &[u32], starts: &[u32], c: Counters, names: usize) -> bool
    requires { Limits words.now starts.now c }
    ensures { result ≡ is_sound names words.now starts.now c }
{
    let mut filter = [0u64; 2048];
    let mut at = 0;
    for n in 0..c.nodes {
        if wide(starts[n]) != at {
            return false;
        }
        let Some(len) = next_node(words, starts, c, names, n, at, &mut filter) else {
            return false;
        };
        at += len;
    }
    at == c.words
}

// Whether lent memory holds an arena, under a table of so many names.
pub fn sound(words: &[u32], starts: &[u32], c: Counters, names: usize) -> bool
    ensures { result ≡ is_sound names words.now starts.now c }
{
    if !within(words, starts, c) {
        return false;
    }
    nodes_sound(words, starts, c, names)
}

// The count of names under which lent memory holds an arena: what every call open to a host asks first of the table and the memory
// that it is lent.
pub fn judge(table: &[u8], words: &[u32], starts: &[u32], c: Counters) -> Result<usize, Refusal>
    ensures { result ≡ lent_reply table.now words.now starts.now c }
{
    let count = check_names(table)?;
    if !sound(words, starts, c, count) {
        return Err(Refusal::UnsoundArena);
    }
    Ok(count)
}
