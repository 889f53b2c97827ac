// How two nodes stand in order, read off their words. specs/NodeOrder.antt says it of nodes and specs/WordsOrder.antt of any
// words; the theorem `words_order_encode` of proofs/Agreement.antt has that the words of formed nodes stand as the nodes do.
#![tactic(auto)]

ghost use Rattle.std.specs.Prelude.{◌≡◌, get_or, drop};
ghost use Rattle.types.specs.Order.{lexicographic};
ghost use Rattle.node_order.specs.NodeOrder.{keys_order};
ghost use Rattle.node_order.specs.Inner.{field_order, FieldCount, optional_order, NextOptional};
ghost use Rattle.node_order.specs.WordsOrder.{part_keys, body_keys, words_order};

use types::Ordering;
use types::arc_ty::{Head, child};
use types::attrset::{field_name, field_optional};

// Two field words by name, then by child.
fn field_order(v: u32, w: u32) -> Ordering
    ensures { result ≡ field_order v w }
{
    field_name(v)
        .cmp(&field_name(w))
        .then_with(|| child(v).cmp(&child(w)))
}

// Two lists of field words, by the first that differs in more than its optional bit.
fn fields_order(e: &[u32], f: &[u32]) -> Ordering
    ensures { result ≡ lexicographic field_order e.now f.now }
{
    for (v, w) in e.iter().zip(f) {
        let here = field_order(*v, *w);
        if here.is_ne() {
            return here;
        }
    }
    e.len().cmp(&f.len())
}

// Where the next optional field stands, from a place on; past the last field where there is none.
fn next_optional(fields: &[u32], from: usize) -> usize
    ensures { NextOptional fields.now from result }
{
    for i in from..fields.len() {
        if field_optional(fields[i]) {
            return i;
        }
    }
    fields.len().max(from)
}

// Two lists of field words, by the names of those that are optional.
fn optional_order(e: &[u32], f: &[u32]) -> Ordering
    ensures { result ≡ optional_order e.now f.now }
{
    // No iterators: a `filter` over each list needs the same walk with `next`, and its `Option`s besides.
    let mut i = next_optional(e, 0);
    let mut j = next_optional(f, 0);
    while i < e.len() {
        if j >= f.len() {
            return Ordering::Greater;
        }
        let here = field_name(e[i]).cmp(&field_name(f[j]));
        if here.is_ne() {
            return here;
        }
        i = next_optional(e, i + 1);
        j = next_optional(f, j + 1);
    }
    if j < f.len() {
        Ordering::Less
    } else {
        Ordering::Equal
    }
}

// The head of a node's words, and 0 where there are none.
fn head_of(node: &[u32]) -> Head
    ensures { result.word ≡ get_or node.now 0 0 }
{
    Head {
        word: node.first().copied().unwrap_or(0),
    }
}

// What follows the head.
fn body_of<'a>(node: &'a [u32]) -> &'a [u32]
    ensures { result.now ≡ drop 1 node.now }
{
    node.get(1..).unwrap_or(&[])
}

// How many of so many body words are field words: in a set all but the dynamic part, in a `Named` all.
pub fn field_count(head: Head, count: usize) -> usize
    ensures { FieldCount head.word count result }
{
    match head.kind() {
        Head::NAMED => count,
        Head::ATTR_SET => count.saturating_sub(usize::from(head.dynamic())),
        _ => 0,
    }
}

// Two nodes, each given as its head, its field words and its other words, key after key.
fn parts_order(g: Head, e: &[u32], s: &[u32], h: Head, f: &[u32], t: &[u32]) -> Ordering
    ensures { result
        ≡ keys_order (part_keys g.word e.now s.now) (part_keys h.word f.now t.now) }
{
    g.kind()
        .cmp(&h.kind())
        .then_with(|| fields_order(e, f))
        .then_with(|| s.cmp(t))
        .then_with(|| g.opened().cmp(&h.opened()))
        .then_with(|| optional_order(e, f))
}

// Two nodes, each given as its head and its body.
fn bodies_order(g: Head, a: &[u32], h: Head, b: &[u32]) -> Ordering
    ensures { result ≡ keys_order (body_keys g.word a.now) (body_keys h.word b.now) }
{
    let m = field_count(g, a.len());
    let n = field_count(h, b.len());
    parts_order(g, &a[..m], &a[m..], h, &b[..n], &b[n..])
}

// How two nodes stand in order, given the words of each.
pub fn node_order(a: &[u32], b: &[u32]) -> Ordering
    ensures { result ≡ words_order a.now b.now }
{
    bodies_order(head_of(a), body_of(a), head_of(b), body_of(b))
}
