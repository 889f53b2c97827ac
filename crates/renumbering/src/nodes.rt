// The recursion: a node is rebuilt from what its children become. A refusal is passed up, and memory then begins with the arena as it was.
ghost use Rattle.node_filter.specs.Inner.Filter.{CoversLent, CoversAfter};
ghost use Rattle.recursion.specs.Inner.Work.{Ready, Does, EachReady, DoesEach, CoversRun};
ghost use Rattle.renumbering.specs.Renumbered.{renumbered};
ghost use Rattle.renumbering.specs.Inner.{Numbered};

use crate::vars::renumber_var;
use node_reading::nodes::kind_at;
use rebuilding::children::all_children;
use rebuilding::node::rebuild;
use recursion::{cached, item_at, remember};
use types::arc_ty::{Head, wide};
use types::{Counters, Refusal};

// What node n becomes, remembered. The variables are listed in the order of their numbers.
#[cycle(renumbering)]
pub fn renumber_node(
    words: &mut [u32],
    starts: &mut [u32],
    c: Counters,
    n: u32,
    vars: &[u32],
    cache: &mut [u32; 4096],
    filter: &mut [u64; 2048],
) -> Result<(u32, Counters), Refusal>
    requires ready { Ready (renumbered vars.now) (Numbered vars.now) words.old starts.old c n cache.old }
    requires covers_lent { CoversLent words.old starts.old c filter.old }
    ensures does { Does (renumbered vars.now) (Numbered vars.now) words.old starts.old c n
        cache.old words.new starts.new cache.new result }
    ensures covers_after { CoversAfter words.new starts.new result filter.new }
{
    let hit = cached(cache, n);
    if hit != 0 {
        return Ok((hit - 1, c));
    }
    let r = renumber_uncached(words, starts, c, n, vars, cache, filter);
    let Ok((m, d)) = r else {
        return r;
    };
    remember(cache, n, m);
    Ok((m, d))
}

// The same, worked out.
#[cycle(renumbering)]
fn renumber_uncached(
    words: &mut [u32],
    starts: &mut [u32],
    c: Counters,
    n: u32,
    vars: &[u32],
    cache: &mut [u32; 4096],
    filter: &mut [u64; 2048],
) -> Result<(u32, Counters), Refusal>
    requires ready { Ready (renumbered vars.now) (Numbered vars.now) words.old starts.old c n cache.old }
    requires covers_lent { CoversLent words.old starts.old c filter.old }
    ensures does { Does (renumbered vars.now) (Numbered vars.now) words.old starts.old c n
        cache.old words.new starts.new cache.new result }
    ensures covers_after { CoversAfter words.new starts.new result filter.new }
{
    if kind_at(words, starts, c, wide(n)) == Head::TY_VAR {
        return renumber_var(words, starts, c, n, vars, filter);
    }
    let mut list = all_children(words, starts, c, n);
    let count = list.count;
    let d = renumber_each(
        words,
        starts,
        c,
        n,
        &mut list.items,
        count,
        vars,
        cache,
        filter,
    )?;
    rebuild(words, starts, d, n, &list.items, count, filter)
}

// What each of the first `count` items becomes, in its place; all are below n.
#[cycle(renumbering)]
fn renumber_each(
    words: &mut [u32],
    starts: &mut [u32],
    c: Counters,
    n: u32,
    items: &mut [u32; 65],
    count: usize,
    vars: &[u32],
    cache: &mut [u32; 4096],
    filter: &mut [u64; 2048],
) -> Result<Counters, Refusal>
    requires each_ready { EachReady (renumbered vars.now) (Numbered vars.now) words.old starts.old c n items.old count cache.old }
    requires covers_lent { CoversLent words.old starts.old c filter.old }
    ensures does_each { DoesEach (renumbered vars.now) (Numbered vars.now) words.old
        starts.old c n items.old count cache.old words.new
        starts.new items.new cache.new result }
    ensures covers_run { CoversRun words.new starts.new result filter.new }
{
    let mut last = c;
    for i in 0..count {
        let item = item_at(items, i);
        let (m, d) = renumber_node(words, starts, last, item, vars, cache, filter)?;
        items[i] = m;
        last = d;
    }
    Ok(last)
}
