// `apply_simplification` and its uncached half. A node is rebuilt from what its children become; of a member list some fall
// away. A refusal is passed up, and memory then begins with the arena as it was.
ghost use Rattle.node_filter.specs.Inner.Filter.{CoversLent, CoversAfter};
ghost use Rattle.recursion.specs.Inner.Work.{CoversRun};
ghost use Rattle.pass.specs.Inner.Applied.{Ready, Applies, AppliesFirst, ListAt, FirstMember, EachReady, AppliesEach};

use crate::cache::{cached, remember};
use member_lists::close_list;
use node_reading::nodes::kind_at;
use node_store::children::child_words;
use node_store::stored::node_at;
use rebuilding::children::remaining;
use rebuilding::node::rebuild;
use recursion::item_at;
use types::arc_ty::{Head, child, wide};
use types::{Counters, Refusal};

// The first member of the list n.
fn first_member(words: &[u32], starts: &[u32], c: Counters, n: u32) -> u32
    requires { ListAt words.now starts.now c n }
    ensures { FirstMember words.now starts.now c n result }
{
    let body = child_words(node_at(words, starts, c, wide(n)));
    child(body[0])
}

// What node n becomes, remembered.
#[cycle(applying)]
pub fn apply_simplification(
    words: &mut [u32],
    starts: &mut [u32],
    c: Counters,
    n: u32,
    removable: &[u64; 64],
    keep: bool,
    dropped: &mut [u32; 4096],
    kept: &mut [u32; 4096],
    filter: &mut [u64; 2048],
) -> Result<(u32, Counters), Refusal>
    requires ready { Ready words.old starts.old c n removable.now dropped.old kept.old }
    requires covers_lent { CoversLent words.old starts.old c filter.old }
    ensures applies { Applies words.old starts.old c n removable.now keep dropped.old
        kept.old words.new starts.new dropped.new kept.new result }
    ensures covers_after { CoversAfter words.new starts.new result filter.new }
{
    let hit = cached(dropped, kept, keep, n);
    if hit != 0 {
        return Ok((hit - 1, c));
    }
    let r = apply_simplification_uncached(
        words, starts, c, n, removable, keep, dropped, kept, filter,
    );
    let Ok((m, d)) = r else {
        return r;
    };
    remember(dropped, kept, keep, n, m);
    Ok((m, d))
}

// The same, worked out: of a member list the members that remain are simplified and gathered, of any other node all children.
// If nothing is left of a list, it is what its first member becomes.
#[cycle(applying)]
fn apply_simplification_uncached(
    words: &mut [u32],
    starts: &mut [u32],
    c: Counters,
    n: u32,
    removable: &[u64; 64],
    keep: bool,
    dropped: &mut [u32; 4096],
    kept: &mut [u32; 4096],
    filter: &mut [u64; 2048],
) -> Result<(u32, Counters), Refusal>
    requires ready { Ready words.old starts.old c n removable.now dropped.old kept.old }
    requires covers_lent { CoversLent words.old starts.old c filter.old }
    ensures applies { Applies words.old starts.old c n removable.now keep dropped.old
        kept.old words.new starts.new dropped.new kept.new result }
    ensures covers_after { CoversAfter words.new starts.new result filter.new }
{
    let kind = kind_at(words, starts, c, wide(n));
    let is_list = (kind == Head::UNION) | (kind == Head::INTERSECTION);
    let mut items = [0u32; 65];
    let count = remaining(words, starts, c, n, removable, !is_list | keep, &mut items);
    let d = apply_each(
        words, starts, c, n, &mut items, count, removable, keep, dropped, kept, filter,
    )?;
    if !is_list {
        return rebuild(words, starts, d, n, &items, count, filter);
    }
    let closed = close_list(words, starts, d, kind, &items, count, n, filter);
    let Some(done) = closed else {
        return apply_first(words, starts, d, n, removable, dropped, kept, filter);
    };
    done
}

// What the first member of the list n becomes, with no variable removable.
#[cycle(applying)]
fn apply_first(
    words: &mut [u32],
    starts: &mut [u32],
    c: Counters,
    n: u32,
    removable: &[u64; 64],
    dropped: &mut [u32; 4096],
    kept: &mut [u32; 4096],
    filter: &mut [u64; 2048],
) -> Result<(u32, Counters), Refusal>
    requires ready { Ready words.old starts.old c n removable.now dropped.old kept.old }
    requires list_at { ListAt words.old starts.old c n }
    requires covers_lent { CoversLent words.old starts.old c filter.old }
    ensures applies_first { AppliesFirst words.old starts.old c n removable.now dropped.old
        kept.old words.new starts.new dropped.new kept.new result }
    ensures covers_after { CoversAfter words.new starts.new result filter.new }
{
    let first = first_member(words, starts, c, n);
    apply_simplification(
        words, starts, c, first, removable, true, dropped, kept, filter,
    )
}

// What each of the first `count` items becomes, in its place; all are below n.
#[cycle(applying)]
fn apply_each(
    words: &mut [u32],
    starts: &mut [u32],
    c: Counters,
    n: u32,
    items: &mut [u32; 65],
    count: usize,
    removable: &[u64; 64],
    keep: bool,
    dropped: &mut [u32; 4096],
    kept: &mut [u32; 4096],
    filter: &mut [u64; 2048],
) -> Result<Counters, Refusal>
    requires each_ready { EachReady words.old starts.old c n items.old count removable.now dropped.old kept.old }
    requires covers_lent { CoversLent words.old starts.old c filter.old }
    ensures applies_each { AppliesEach words.old starts.old c n items.old count removable.now keep
        dropped.old kept.old words.new starts.new items.new dropped.new
        kept.new result }
    ensures covers_run { CoversRun words.new starts.new result filter.new }
{
    let mut last = c;
    for i in 0..count {
        let item = item_at(items, i);
        let (m, d) = apply_simplification(
            words, starts, last, item, removable, keep, dropped, kept, filter,
        )?;
        items[i] = m;
        last = d;
    }
    Ok(last)
}
