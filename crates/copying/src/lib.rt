// `compact_inner` and its uncached half: a type of one arena, which is only read, is copied into another. A node is copied
// after its children. A refusal is passed up, and the memory of the target then begins with the arena as it was.
#![tactic(auto)]

ghost use Rattle.std.specs.Prelude.{◌≡◌, get_or};
ghost use Rattle.recursion.specs.Inner.Work.{Ready, Does, EachReady, DoesEach};
ghost use Rattle.copying.specs.Copy.{copy};
ghost use Rattle.copying.specs.Inner.{Source, CopyReady, CopyNew, Copies, AllCached, CachedAfter, CachedOnce, CachedRun};

use node_store::added::add_node;
use node_store::stored::node_at;
use rebuilding::children::all_children;
use rebuilding::node::exchange;
use recursion::{cached, item_at, remember};
use types::arc_ty::wide;
use types::{Counters, Refusal};

// The copy of node n, whose children's copies are the items: its words with these children. The target doesn't have it.
fn intern_copy(
    words: &[u32],
    starts: &[u32],
    c: Counters,
    n: u32,
    items: &[u32; 65],
    count: usize,
    target_words: &mut [u32],
    target_starts: &mut [u32],
    d: Counters,
) -> Result<(u32, Counters), Refusal>
    requires copy_ready { CopyReady words.now starts.now c n items.now count target_words.old target_starts.old d }
    requires copy_new { CopyNew words.now starts.now c n items.now count target_words.old target_starts.old d }
    ensures { Copies words.now starts.now c n items.now count target_words.old
        target_starts.old d target_words.new target_starts.new result }
{
    let node = node_at(words, starts, c, wide(n));
    if count == 0 {
        return add_node(target_words, target_starts, d, node);
    }
    let mut new = [0u32; 66];
    exchange(node, items, count, &mut new);
    let len = count + 1;
    add_node(target_words, target_starts, d, &new[..len])
}

// The copy of node n, remembered. Every copy in the target is, so that a node that isn't remembered is added without a search.
#[cycle(compacting)]
pub fn compact_inner(
    words: &[u32],
    starts: &[u32],
    c: Counters,
    n: u32,
    target_words: &mut [u32],
    target_starts: &mut [u32],
    d: Counters,
    cache: &mut [u32; 4096],
) -> Result<(u32, Counters), Refusal>
    requires ready { Ready copy (Source words.now starts.now c) target_words.old target_starts.old d n cache.old }
    requires all_cached { AllCached words.now starts.now c target_words.old target_starts.old d cache.old }
    ensures does { Does copy (Source words.now starts.now c) target_words.old
        target_starts.old d n cache.old target_words.new target_starts.new
        cache.new result }
    ensures cached_after { CachedAfter words.now starts.now c target_words.new target_starts.new
        cache.new result }
{
    let hit = cached(cache, n);
    if hit != 0 {
        return Ok((hit - 1, d));
    }
    let r = compact_inner_uncached(words, starts, c, n, target_words, target_starts, d, cache);
    let Ok((m, e)) = r else {
        return r;
    };
    remember(cache, n, m);
    Ok((m, e))
}

// The same, worked out, for a node without an entry.
#[cycle(compacting)]
fn compact_inner_uncached(
    words: &[u32],
    starts: &[u32],
    c: Counters,
    n: u32,
    target_words: &mut [u32],
    target_starts: &mut [u32],
    d: Counters,
    cache: &mut [u32; 4096],
) -> Result<(u32, Counters), Refusal>
    requires ready { Ready copy (Source words.now starts.now c) target_words.old target_starts.old d n cache.old }
    requires all_cached { AllCached words.now starts.now c target_words.old target_starts.old d cache.old }
    requires n_value { get_or cache.old n 0 ≡ 0 }
    ensures does { Does copy (Source words.now starts.now c) target_words.old
        target_starts.old d n cache.old target_words.new target_starts.new
        cache.new result }
    ensures cached_once { CachedOnce words.now starts.now c n target_words.new target_starts.new
        cache.new result }
{
    let mut list = all_children(words, starts, c, n);
    let count = list.count;
    let e = compact_each(
        words,
        starts,
        c,
        n,
        &mut list.items,
        count,
        target_words,
        target_starts,
        d,
        cache,
    )?;
    intern_copy(
        words,
        starts,
        c,
        n,
        &list.items,
        count,
        target_words,
        target_starts,
        e,
    )
}

// The copy of each of the first `count` items, in its place; all are below n.
#[cycle(compacting)]
fn compact_each(
    words: &[u32],
    starts: &[u32],
    c: Counters,
    n: u32,
    items: &mut [u32; 65],
    count: usize,
    target_words: &mut [u32],
    target_starts: &mut [u32],
    d: Counters,
    cache: &mut [u32; 4096],
) -> Result<Counters, Refusal>
    requires each_ready { EachReady copy (Source words.now starts.now c) target_words.old target_starts.old d n items.old count
        cache.old }
    requires all_cached { AllCached words.now starts.now c target_words.old target_starts.old d cache.old }
    ensures does_each { DoesEach copy (Source words.now starts.now c) target_words.old
        target_starts.old d n items.old count cache.old target_words.new
        target_starts.new items.new cache.new result }
    ensures cached_run { CachedRun words.now starts.now c target_words.new target_starts.new
        cache.new result }
{
    let mut last = d;
    for i in 0..count {
        let item = item_at(items, i);
        let (m, e) = compact_inner(
            words,
            starts,
            c,
            item,
            target_words,
            target_starts,
            last,
            cache,
        )?;
        items[i] = m;
        last = e;
    }
    Ok(last)
}
