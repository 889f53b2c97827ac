// What becomes of a union or an intersection, from its members as simplified. Both are one code over the number of their kind.
#![tactic(auto)]

mod bounds;
pub mod growing;

ghost use Rattle.std.specs.Prelude.{◌<◌, ◌≡◌, take};
ghost use Rattle.node_filter.specs.Inner.Filter.{CoversLent, CoversAfter};
ghost use Rattle.member_lists.specs.Inner.Members.{Room, Gathering, Decides, NodeWords, Listing, Filled, InternsList, Finishes};
ghost use Rattle.member_lists.specs.Inner.Members.{ClosesOpen};
ghost use Rattle.member_lists.specs.Inner.Closed.{Closing, Closes, CoversClosed};

use crate::bounds::{deciding, kind_of};
use crate::growing::flatten;
use node_filter::intern_near;
use types::arc_ty::Head;
use types::{Counters, Refusal};

// A list of at most 64 node numbers with its length.
#[derive(Clone, Copy)]
pub struct Members {
    pub items: [u32; 64],
    pub count: usize,
}

// The first `count` items, or all of them where there are no more.
fn first_items(items: &[u32; 65], count: usize) -> &[u32]
    ensures { result.now ≡ take count items.now }
{
    let all: &[u32] = items;
    if count < all.len() {
        return &all[..count];
    }
    all
}

// Which member decides a list of a kind.
fn decider(words: &[u32], starts: &[u32], c: Counters, kind: u32, members: &[u32]) -> Option<u32>
    requires { Gathering words.now starts.now c kind members.now }
    ensures { Decides words.now starts.now c kind members.now result }
{
    let bound = deciding(kind);
    for n in members {
        if kind_of(words, starts, c, *n) == bound {
            return Some(*n);
        }
    }
    None
}

// The words of a node: its head, then the members of the list.
fn node_words(head: u32, list: &Members) -> [u32; 65]
    requires { Room list.now.items list.now.count }
    ensures { NodeWords head list.now.items list.now.count result }
{
    let mut node = [0u32; 65];
    node[0] = head;
    node[1..=list.count].copy_from_slice(&list.items[..list.count]);
    node
}

// The number of the node of a kind that has these members. It is compared first with node `near`, the list that they came from.
pub fn intern_list(
    words: &mut [u32],
    starts: &mut [u32],
    c: Counters,
    kind: u32,
    list: &Members,
    near: u32,
    filter: &mut [u64; 2048],
) -> Result<(u32, Counters), Refusal>
    requires filled { Filled words.old starts.old c kind list.now.items list.now.count }
    requires near_lt_nodes { near < c.nodes }
    requires covers_lent { CoversLent words.old starts.old c filter.old }
    ensures interns_list { InternsList words.old starts.old c kind list.now.items list.now.count words.new
        starts.new result }
    ensures covers_after { CoversAfter words.new starts.new result filter.new }
{
    let head = Head::new(kind, false, false, list.count);
    let node = node_words(head.word, list);
    let end = list.count + 1;
    intern_near(words, starts, c, &node[..end], near, filter)
}

// What stands for a list of a kind: one member for itself, several as a node.
fn finish(
    words: &mut [u32],
    starts: &mut [u32],
    c: Counters,
    kind: u32,
    list: &Members,
    near: u32,
    filter: &mut [u64; 2048],
) -> Option<Result<(u32, Counters), Refusal>>
    requires listing { Listing words.old starts.old c kind list.now.items list.now.count }
    requires near_lt_nodes { near < c.nodes }
    requires covers_lent { CoversLent words.old starts.old c filter.old }
    ensures finishes { Finishes words.old starts.old c kind list.now.items list.now.count words.new
        starts.new result }
    ensures covers_closed { CoversClosed words.new starts.new c result filter.new }
{
    if list.count == 0 {
        return None;
    }
    if list.count == 1 {
        return Some(Ok((list.items[0], c)));
    }
    Some(intern_list(words, starts, c, kind, list, near, filter))
}

// What stands for the list that the members make, if none of them decides it. As LLVM builds it, it and its lists stay out of the
// frame of the recursion that calls this; Rattle's own compiler takes no notice of the attribute (docs/DECISIONS.md).
#[inline(never)]
fn close_open(
    words: &mut [u32],
    starts: &mut [u32],
    c: Counters,
    kind: u32,
    members: &[u32],
    near: u32,
    filter: &mut [u64; 2048],
) -> Option<Result<(u32, Counters), Refusal>>
    requires gathering { Gathering words.old starts.old c kind members.now }
    requires near_lt_nodes { near < c.nodes }
    requires covers_lent { CoversLent words.old starts.old c filter.old }
    ensures closes_open { ClosesOpen words.old starts.old c kind members.now words.new
        starts.new result }
    ensures covers_closed { CoversClosed words.new starts.new c result filter.new }
{
    let mut list = Members {
        items: [0u32; 64],
        count: 0,
    };
    let mut met = [0u64; 64];
    match flatten(words, starts, c, kind, members, &mut list.items, &mut met) {
        Ok(count) => {
            list.count = count;
            finish(words, starts, c, kind, &list, near, filter)
        }
        Err(refusal) => Some(Err(refusal)),
    }
}

// What becomes of a member list of a kind: a member that decides it; else its members, spliced one level, without the neutral
// element and without repeats: one stands for itself, several are interned, and a 65th is refused.
pub fn close_list(
    words: &mut [u32],
    starts: &mut [u32],
    c: Counters,
    kind: u32,
    items: &[u32; 65],
    count: usize,
    near: u32,
    filter: &mut [u64; 2048],
) -> Option<Result<(u32, Counters), Refusal>>
    requires closing { Closing words.old starts.old c kind items.now count }
    requires near_lt_nodes { near < c.nodes }
    requires covers_lent { CoversLent words.old starts.old c filter.old }
    ensures closes { Closes words.old starts.old c kind items.now count words.new
        starts.new result }
    ensures covers_closed { CoversClosed words.new starts.new c result filter.new }
{
    let members = first_items(items, count);
    if let Some(n) = decider(words, starts, c, kind, members) {
        return Some(Ok((n, c)));
    }
    close_open(words, starts, c, kind, members, near, filter)
}
