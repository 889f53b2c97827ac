// The recursion of `normalize_set_ops`: a member list is flattened and sorted, any other node is rebuilt from what its children
// become. A refusal is passed up, and memory then begins with the arena as it was.
#![tactic(auto)]

ghost use Rattle.node_store.specs.Inner.Stored.{InRange};
ghost use Rattle.node_filter.specs.Inner.Filter.{CoversLent, CoversAfter};
ghost use Rattle.recursion.specs.Inner.Work.{Grown, Ready, Does, EachReady, DoesEach, CoversRun};
ghost use Rattle.set_op_lists.specs.SetOps.{normalize};
ghost use Rattle.set_ops_pass.specs.Inner.{ListReady, OtherReady, MemberCount, MemberThere, MemberAt};

use member_lists::Members;
use node_reading::nodes::kind_at;
use node_store::children::child_words;
use node_store::stored::node_at;
use rebuilding::children::all_children;
use rebuilding::node::rebuild;
use recursion::{cached, item_at, remember};
use set_op_lists::{bring, close_list};
use types::arc_ty::{Head, child, wide};
use types::{Counters, Refusal};

// How many members the list n has.
fn member_count(words: &[u32], starts: &[u32], c: Counters, n: u32) -> usize
    requires { InRange words.now starts.now c n }
    ensures { MemberCount words.now starts.now c n result }
{
    child_words(node_at(words, starts, c, wide(n))).len()
}

// Member i of the list n. It is read when its turn comes: the words of a node stay as they are while others are added.
fn member_at(words: &[u32], starts: &[u32], c: Counters, n: u32, i: usize) -> u32
    requires { MemberThere words.now starts.now c n i }
    ensures { MemberAt words.now starts.now c n i result }
{
    let body = child_words(node_at(words, starts, c, wide(n)));
    child(body[i])
}

// What node n becomes, remembered.
#[cycle(normalizing)]
pub fn normalize_set_ops_cached(
    words: &mut [u32],
    starts: &mut [u32],
    c: Counters,
    n: u32,
    cache: &mut [u32; 4096],
    filter: &mut [u64; 2048],
) -> Result<(u32, Counters), Refusal>
    requires ready { Ready normalize Grown words.old starts.old c n cache.old }
    requires covers_lent { CoversLent words.old starts.old c filter.old }
    ensures does { Does normalize Grown words.old starts.old c n cache.old words.new
        starts.new cache.new result }
    ensures covers_after { CoversAfter words.new starts.new result filter.new }
{
    let hit = cached(cache, n);
    if hit != 0 {
        return Ok((hit - 1, c));
    }
    let r = normalize_set_ops_uncached(words, starts, c, n, cache, filter);
    let Ok((m, d)) = r else {
        return r;
    };
    remember(cache, n, m);
    Ok((m, d))
}

// The same, worked out. Lists come last, and any other node has a function of its own, so that LLVM makes one small frame of all
// (docs/DECISIONS.md).
#[cycle(normalizing)]
fn normalize_set_ops_uncached(
    words: &mut [u32],
    starts: &mut [u32],
    c: Counters,
    n: u32,
    cache: &mut [u32; 4096],
    filter: &mut [u64; 2048],
) -> Result<(u32, Counters), Refusal>
    requires ready { Ready normalize Grown words.old starts.old c n cache.old }
    requires covers_lent { CoversLent words.old starts.old c filter.old }
    ensures does { Does normalize Grown words.old starts.old c n cache.old words.new
        starts.new cache.new result }
    ensures covers_after { CoversAfter words.new starts.new result filter.new }
{
    let kind = kind_at(words, starts, c, wide(n));
    let is_list = (kind == Head::UNION) | (kind == Head::INTERSECTION);
    if !is_list {
        return normalize_children(words, starts, c, n, cache, filter);
    }
    flatten_set_op_cached(words, starts, c, n, kind, cache, filter)
}

// A node that is no list: its children are normalized, and it is rebuilt from what they become.
#[cycle(normalizing)]
fn normalize_children(
    words: &mut [u32],
    starts: &mut [u32],
    c: Counters,
    n: u32,
    cache: &mut [u32; 4096],
    filter: &mut [u64; 2048],
) -> Result<(u32, Counters), Refusal>
    requires other_ready { OtherReady words.old starts.old c n cache.old }
    requires covers_lent { CoversLent words.old starts.old c filter.old }
    ensures does { Does normalize Grown words.old starts.old c n cache.old words.new
        starts.new cache.new result }
    ensures covers_after { CoversAfter words.new starts.new result filter.new }
{
    let mut list = all_children(words, starts, c, n);
    let count = list.count;
    let d = normalize_each(words, starts, c, n, &mut list.items, count, cache, filter)?;
    rebuild(words, starts, d, n, &list.items, count, filter)
}

// A member list: what each member brings is appended before the next is normalized.
#[cycle(normalizing)]
fn flatten_set_op_cached(
    words: &mut [u32],
    starts: &mut [u32],
    c: Counters,
    n: u32,
    kind: u32,
    cache: &mut [u32; 4096],
    filter: &mut [u64; 2048],
) -> Result<(u32, Counters), Refusal>
    requires list_ready { ListReady words.old starts.old c n kind cache.old }
    requires covers_lent { CoversLent words.old starts.old c filter.old }
    ensures does { Does normalize Grown words.old starts.old c n cache.old words.new
        starts.new cache.new result }
    ensures covers_after { CoversAfter words.new starts.new result filter.new }
{
    let total = member_count(words, starts, c, n);
    let mut list = Members {
        items: [0u32; 64],
        count: 0,
    };
    let mut met = [0u64; 64];
    let mut last = c;
    for i in 0..total {
        let member = member_at(words, starts, last, n, i);
        let r = normalize_set_ops_cached(words, starts, last, member, cache, filter);
        let held = list.count;
        let (next, d) = bring(words, starts, r, kind, &mut list.items, &mut met, held)?;
        list.count = next;
        last = d;
    }
    let held = list.count;
    close_list(words, starts, last, kind, &list.items, held, n, filter)
}

// What each of the first `count` items becomes, in its place; all are below n.
#[cycle(normalizing)]
fn normalize_each(
    words: &mut [u32],
    starts: &mut [u32],
    c: Counters,
    n: u32,
    items: &mut [u32; 65],
    count: usize,
    cache: &mut [u32; 4096],
    filter: &mut [u64; 2048],
) -> Result<Counters, Refusal>
    requires each_ready { EachReady normalize Grown words.old starts.old c n items.old count cache.old }
    requires covers_lent { CoversLent words.old starts.old c filter.old }
    ensures does_each { DoesEach normalize Grown words.old starts.old c n items.old count cache.old
        words.new starts.new items.new cache.new result }
    ensures covers_run { CoversRun words.new starts.new result filter.new }
{
    let mut last = c;
    for i in 0..count {
        let item = item_at(items, i);
        let (m, d) = normalize_set_ops_cached(words, starts, last, item, cache, filter)?;
        items[i] = m;
        last = d;
    }
    Ok(last)
}
