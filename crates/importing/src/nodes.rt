// The recursion: a node is interned in the target after its children. A refusal is passed up, and the memory of the target then
// begins with the arena as it was.
ghost use Rattle.std.specs.Prelude.{◌≤◌};
ghost use Rattle.node_store.specs.Inner.Added.{Fresh, Interns};
ghost use Rattle.node_filter.specs.Inner.Filter.{CoversLent, CoversAfter};
ghost use Rattle.recursion.specs.Inner.Work.{Ready, Does, EachReady, DoesEach, CoversRun};
ghost use Rattle.importing.specs.Import.{import_node};
ghost use Rattle.importing.specs.Inner.Names.{by_map};
ghost use Rattle.importing.specs.Inner.Nodes.{Foreign, Complete, AllComplete, ImportReady, Imports};

use crate::fields::rename_fields;
use node_filter::{intern_filtered, intern_near};
use node_order::field_count;
use node_store::stored::node_at;
use rebuilding::children::all_children;
use rebuilding::node::exchange;
use recursion::{cached, item_at, remember};
use types::arc_ty::{Head, wide};
use types::{Counters, Refusal};

// The number that is likely next, after node m was met: a type that was imported before has its nodes in the target in the order in
// which they are met now. Nothing rests on it but how soon a node is found.
fn next_near(near: u32, m: u32) -> u32 {
    if m < near {
        return near;
    }
    if m >= 4096 {
        return near;
    }
    m + 1
}

// The same after the first `count` items.
fn near_after(items: &[u32; 65], count: usize, near: u32) -> u32
    requires { count ≤ 65 }
{
    let mut next = near;
    for m in &items[..count] {
        next = next_near(next, *m);
    }
    next
}

// `intern_filtered`, where node `near` is compared first, if there is such a node.
fn intern_likely(
    words: &mut [u32],
    starts: &mut [u32],
    c: Counters,
    node: &[u32],
    near: u32,
    filter: &mut [u64; 2048],
) -> Result<(u32, Counters), Refusal>
    requires fresh { Fresh words.old starts.old c node.now }
    requires covers_lent { CoversLent words.old starts.old c filter.old }
    ensures interns { Interns words.old starts.old c node.now words.new
        starts.new result }
    ensures covers_after { CoversAfter words.new starts.new result filter.new }
{
    if wide(near) >= c.nodes {
        return intern_filtered(words, starts, c, node, filter);
    }
    intern_near(words, starts, c, node, near, filter)
}

// Interns node n of the source in the target, with the items as its children and with its names' numbers in the target's table.
fn intern_imported(
    words: &[u32],
    starts: &[u32],
    c: Counters,
    n: u32,
    names: &[u32; 4096],
    items: &[u32; 65],
    count: usize,
    target_words: &mut [u32],
    target_starts: &mut [u32],
    d: Counters,
    near: u32,
    filter: &mut [u64; 2048],
) -> Result<(u32, Counters), Refusal>
    requires import_ready { ImportReady names.now words.now starts.now c n items.now count target_words.old target_starts.old d }
    requires complete { Complete names.now words.now starts.now c n }
    requires covers_lent { CoversLent target_words.old target_starts.old d filter.old }
    ensures imports { Imports names.now words.now starts.now c n items.now count
        target_words.old target_starts.old d target_words.new target_starts.new result }
    ensures covers_after { CoversAfter target_words.new target_starts.new result filter.new }
{
    let node = node_at(words, starts, c, wide(n));
    if count == 0 {
        return intern_likely(target_words, target_starts, d, node, near, filter);
    }
    let mut new = [0u32; 66];
    exchange(node, items, count, &mut new);
    let head = Head { word: node[0] };
    rename_fields(names, field_count(head, count), &mut new);
    let len = count + 1;
    let next = near_after(items, count, near);
    intern_likely(target_words, target_starts, d, &new[..len], next, filter)
}

// What node n of the source is in the target, remembered. `near` is the number that is likely next there.
#[cycle(importing)]
pub fn import_node(
    words: &[u32],
    starts: &[u32],
    c: Counters,
    n: u32,
    names: &[u32; 4096],
    target_words: &mut [u32],
    target_starts: &mut [u32],
    d: Counters,
    cache: &mut [u32; 4096],
    filter: &mut [u64; 2048],
    near: u32,
) -> Result<(u32, Counters), Refusal>
    requires ready { Ready (import_node (by_map names.now)) (Foreign names.now words.now starts.now c) target_words.old
        target_starts.old d n cache.old }
    requires complete { Complete names.now words.now starts.now c n }
    requires covers_lent { CoversLent target_words.old target_starts.old d filter.old }
    ensures does { Does (import_node (by_map names.now)) (Foreign names.now words.now
        starts.now c) target_words.old target_starts.old d n cache.old
        target_words.new target_starts.new cache.new result }
    ensures covers_after { CoversAfter target_words.new target_starts.new result filter.new }
{
    let hit = cached(cache, n);
    if hit != 0 {
        return Ok((hit - 1, d));
    }
    let r = import_uncached(
        words,
        starts,
        c,
        n,
        names,
        target_words,
        target_starts,
        d,
        cache,
        filter,
        near,
    );
    let Ok((m, e)) = r else {
        return r;
    };
    remember(cache, n, m);
    Ok((m, e))
}

// The same, worked out.
#[cycle(importing)]
fn import_uncached(
    words: &[u32],
    starts: &[u32],
    c: Counters,
    n: u32,
    names: &[u32; 4096],
    target_words: &mut [u32],
    target_starts: &mut [u32],
    d: Counters,
    cache: &mut [u32; 4096],
    filter: &mut [u64; 2048],
    near: u32,
) -> Result<(u32, Counters), Refusal>
    requires ready { Ready (import_node (by_map names.now)) (Foreign names.now words.now starts.now c) target_words.old
        target_starts.old d n cache.old }
    requires complete { Complete names.now words.now starts.now c n }
    requires covers_lent { CoversLent target_words.old target_starts.old d filter.old }
    ensures does { Does (import_node (by_map names.now)) (Foreign names.now words.now
        starts.now c) target_words.old target_starts.old d n cache.old
        target_words.new target_starts.new cache.new result }
    ensures covers_after { CoversAfter target_words.new target_starts.new result filter.new }
{
    let mut list = all_children(words, starts, c, n);
    let count = list.count;
    let e = import_each(
        words,
        starts,
        c,
        n,
        names,
        &mut list.items,
        count,
        target_words,
        target_starts,
        d,
        cache,
        filter,
        near,
    )?;
    intern_imported(
        words,
        starts,
        c,
        n,
        names,
        &list.items,
        count,
        target_words,
        target_starts,
        e,
        near,
        filter,
    )
}

// What each of the first `count` items is in the target, in its place; all are below n.
#[cycle(importing)]
fn import_each(
    words: &[u32],
    starts: &[u32],
    c: Counters,
    n: u32,
    names: &[u32; 4096],
    items: &mut [u32; 65],
    count: usize,
    target_words: &mut [u32],
    target_starts: &mut [u32],
    d: Counters,
    cache: &mut [u32; 4096],
    filter: &mut [u64; 2048],
    near: u32,
) -> Result<Counters, Refusal>
    requires each_ready { EachReady (import_node (by_map names.now)) (Foreign names.now words.now starts.now c) target_words.old
        target_starts.old d n items.old count cache.old }
    requires all_complete { AllComplete names.now words.now starts.now c items.old count }
    requires covers_lent { CoversLent target_words.old target_starts.old d filter.old }
    ensures does_each { DoesEach (import_node (by_map names.now)) (Foreign names.now words.now
        starts.now c) target_words.old target_starts.old d n items.old count
        cache.old target_words.new target_starts.new items.new cache.new result }
    ensures covers_run { CoversRun target_words.new target_starts.new result filter.new }
{
    let mut last = d;
    let mut next = near;
    for i in 0..count {
        let item = item_at(items, i);
        let (m, e) = import_node(
            words,
            starts,
            c,
            item,
            names,
            target_words,
            target_starts,
            last,
            cache,
            filter,
            next,
        )?;
        items[i] = m;
        next = next_near(next, m);
        last = e;
    }
    Ok(last)
}
