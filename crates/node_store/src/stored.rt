// The nodes that lent memory holds.
ghost use Rattle.std.specs.Prelude.{◌≡◌};
ghost use Rattle.types.specs.Same.{same_numbers};
ghost use Rattle.node_store.specs.Inner.Stored.{InRange, NodeAt, Sought, IsThere, Later, AfterChildren, Searched, FoundIn, Ordered};

use crate::children::child_words;
use node_order::node_order;
use types::arc_ty::{Head, child, wide};
use types::{Counters, Ordering};

// The words of node n.
pub fn node_at<'a>(words: &'a [u32], starts: &[u32], c: Counters, n: usize) -> &'a [u32]
    requires { InRange words.now starts.now c n }
    ensures { NodeAt words.now starts.now c n result.now }
{
    let at = wide(starts[n]);
    let head = Head { word: words[at] };
    let end = at + 1 + head.count();
    &words[at..end]
}

// Whether two stretches have the same words. The first that differ end it, and most nodes with the same head differ early: `==` on
// slices is a call that looks at many words at once, and took twice as long.
fn same(a: &[u32], b: &[u32]) -> bool
    ensures { result ≡ same_numbers a.now b.now }
{
    if a.len() != b.len() {
        return false;
    }
    for i in 0..a.len() {
        if a[i] != b[i] {
            return false;
        }
    }
    true
}

// Whether node n has the words of `node`. Most nodes differ in their heads, so those are compared first.
pub fn is_there(words: &[u32], starts: &[u32], c: Counters, n: usize, node: &[u32]) -> bool
    requires { Sought words.now starts.now c n node.now }
    ensures { IsThere words.now starts.now c n node.now result }
{
    let at = wide(starts[n]);
    if words[at] != node[0] {
        return false;
    }
    same(node_at(words, starts, c, n), node)
}

// The higher of two numbers: one so far, and the one after m.
fn later(low: usize, m: u32) -> usize
    ensures { Later low m result }
{
    let next = wide(m) + 1;
    if low < next {
        return next;
    }
    low
}

// The least number that a node with these words may have: a node has a higher number than its children.
fn after_children(node: &[u32]) -> usize
    ensures { AfterChildren node.now result }
{
    let mut low = 0;
    for word in child_words(node) {
        low = later(low, child(*word));
    }
    low
}

// The number of the node whose words are those of `node`.
pub fn find(words: &[u32], starts: &[u32], c: Counters, node: &[u32]) -> Option<usize>
    requires { Searched words.now starts.now c node.now }
    ensures { FoundIn words.now starts.now c node.now result }
{
    for i in (after_children(node)..c.nodes).rev() {
        if is_there(words, starts, c, i, node) {
            return Some(i);
        }
    }
    None
}

// How node m and node n stand in order.
pub fn order_of(words: &[u32], starts: &[u32], c: Counters, m: usize, n: usize) -> Ordering
    requires in_range { InRange words.now starts.now c m }
    requires in_range_2 { InRange words.now starts.now c n }
    ensures { Ordered words.now starts.now c m n result }
{
    node_order(node_at(words, starts, c, m), node_at(words, starts, c, n))
}
