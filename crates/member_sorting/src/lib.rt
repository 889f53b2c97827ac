// Members sorted by node order: each is inserted among those before it.
#![tactic(auto)]

ghost use Rattle.node_store.specs.Inner.Stored.{InRange};
ghost use Rattle.member_sorting.specs.Inner.{ComesBefore, Placing, PlaceOf, Gap, OpensGap, Inserting, Inserts, Sorting, Sorts};

use node_store::stored::order_of;
use types::Counters;
use types::arc_ty::wide;

// Whether node m comes before node n.
fn comes_before(words: &[u32], starts: &[u32], c: Counters, m: u32, n: u32) -> bool
    requires in_range { InRange words.now starts.now c m }
    requires in_range_2 { InRange words.now starts.now c n }
    ensures { ComesBefore words.now starts.now c m n result }
{
    order_of(words, starts, c, wide(m), wide(n)).is_lt()
}

// The place of the first member that m comes before.
fn place_of(words: &[u32], starts: &[u32], c: Counters, m: u32, members: &[u32]) -> usize
    requires { Placing words.now starts.now c m members.now }
    ensures { PlaceOf words.now starts.now c m members.now result }
{
    for (i, n) in members.iter().enumerate() {
        if comes_before(words, starts, c, m, *n) {
            return i;
        }
    }
    members.len()
}

// Makes room at a place among the first `count` items.
fn open_gap(items: &mut [u32; 64], place: usize, count: usize)
    requires { Gap items.old place count }
    ensures { OpensGap items.old place count items.new }
{
    items.copy_within(place..count, place + 1);
}

// Inserts m among the first `count` items.
fn insert_member(
    words: &[u32],
    starts: &[u32],
    c: Counters,
    m: u32,
    items: &mut [u32; 64],
    count: usize,
)
    requires { Inserting words.now starts.now c m items.old count }
    ensures { Inserts words.now starts.now c m items.old count items.new }
{
    let all: &[u32] = items;
    let place = place_of(words, starts, c, m, &all[..count]);
    open_gap(items, place, count);
    items[place] = m;
}

// Writes the members to the first items, sorted.
pub fn sort_members(
    words: &[u32],
    starts: &[u32],
    c: Counters,
    members: &[u32],
    items: &mut [u32; 64],
)
    requires { Sorting words.now starts.now c members.now items.old }
    ensures { Sorts words.now starts.now c members.now items.new }
{
    for (i, m) in members.iter().enumerate() {
        insert_member(words, starts, c, *m, items, i);
    }
}
