// What becomes of a union or an intersection in `normalize_set_ops`, from its members as normalized. Both are one code over the
// number of their kind.
#![tactic(auto)]

ghost use Rattle.std.specs.Prelude.{◌<◌};
ghost use Rattle.node_filter.specs.Inner.Filter.{CoversLent, CoversAfter};
ghost use Rattle.member_lists.specs.Inner.Members.{Splicing, Filled};
ghost use Rattle.set_op_lists.specs.Inner.{Appends, Bringing, Brings, StandsFor};

use member_lists::growing::{append, append_children};
use member_lists::{Members, intern_list};
use member_sorting::sort_members;
use node_reading::nodes::kind_at;
use node_store::stored::node_at;
use types::arc_ty::{Head, wide};
use types::{Counters, Refusal};

// Appends what the normalized member m brings to a list of a kind: a list of that kind its own members, any other itself.
fn append_brought(
    words: &[u32],
    starts: &[u32],
    c: Counters,
    kind: u32,
    m: u32,
    items: &mut [u32; 64],
    met: &mut [u64; 64],
    count: usize,
) -> Result<usize, Refusal>
    requires { Splicing words.now starts.now c m items.old count met.old }
    ensures { Appends words.now starts.now c kind m items.old count met.old
        items.new met.new result }
{
    let n = wide(m);
    if kind_at(words, starts, c, n) == kind {
        return append_children(node_at(words, starts, c, n), items, met, count);
    }
    append(items, met, count, m)
}

// The same from a member's outcome, whose refusal is passed on; a 65th member is refused.
pub fn bring(
    words: &[u32],
    starts: &[u32],
    outcome: Result<(u32, Counters), Refusal>,
    kind: u32,
    items: &mut [u32; 64],
    met: &mut [u64; 64],
    count: usize,
) -> Result<(usize, Counters), Refusal>
    requires { Bringing words.now starts.now outcome kind items.old count met.old }
    ensures { Brings words.now starts.now outcome kind items.old count items.new
        met.new result }
{
    let (m, d) = outcome?;
    let next = append_brought(words, starts, d, kind, m, items, met, count)?;
    Ok((next, d))
}

// What stands for a list of a kind, sorted: one member for itself, more as a node.
fn close_sorted(
    words: &mut [u32],
    starts: &mut [u32],
    c: Counters,
    kind: u32,
    items: &[u32; 64],
    count: usize,
    near: u32,
    filter: &mut [u64; 2048],
) -> Result<(u32, Counters), Refusal>
    requires filled { Filled words.old starts.old c kind items.now count }
    requires near_lt_nodes { near < c.nodes }
    requires covers_lent { CoversLent words.old starts.old c filter.old }
    ensures stands_for { StandsFor words.old starts.old c kind items.now count words.new
        starts.new result }
    ensures covers_after { CoversAfter words.new starts.new result filter.new }
{
    let all: &[u32] = items;
    let mut sorted = [0u32; 64];
    sort_members(words, starts, c, &all[..count], &mut sorted);
    if count == 1 {
        return Ok((sorted[0], c));
    }
    intern_list(
        words,
        starts,
        c,
        kind,
        &Members {
            items: sorted,
            count,
        },
        near,
        filter,
    )
}

// The same. Two calls keep `close_sorted`, and its lists, out of the frame of the recursion that calls this.
pub fn close_list(
    words: &mut [u32],
    starts: &mut [u32],
    c: Counters,
    kind: u32,
    items: &[u32; 64],
    count: usize,
    near: u32,
    filter: &mut [u64; 2048],
) -> Result<(u32, Counters), Refusal>
    requires filled { Filled words.old starts.old c kind items.now count }
    requires near_lt_nodes { near < c.nodes }
    requires covers_lent { CoversLent words.old starts.old c filter.old }
    ensures stands_for { StandsFor words.old starts.old c kind items.now count words.new
        starts.new result }
    ensures covers_after { CoversAfter words.new starts.new result filter.new }
{
    if kind == Head::UNION {
        return close_sorted(words, starts, c, Head::UNION, items, count, near, filter);
    }
    close_sorted(
        words,
        starts,
        c,
        Head::INTERSECTION,
        items,
        count,
        near,
        filter,
    )
}
