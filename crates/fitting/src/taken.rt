// The rows of primitives, lists and sets: each value is held against the node.
ghost use Rattle.std.specs.Prelude.{◌/◌, ◌<◌, ◌≡◌, map, length};
ghost use Rattle.words.specs.Words.{child};
ghost use Rattle.fitting.specs.Fits.{primitive_takes, each};
ghost use Rattle.fitting.specs.Inner.Rows.{pair};
ghost use Rattle.fitting.specs.Inner.Taken.{NodeIn, ValueIn, ListIn, SetsIn, SetTakes, Takes, Holding, Against, Marks, RowOf};

use crate::sets::{Other, fits_pair, set_takes};
use bits::put_row;
use fix_values::{LIST, SET, value_at};
use node_reading::nodes::kind_in;
use types::arc_ty::{Head, child};

// Whether the primitive with this code takes a value of this kind: `number` takes int and float, `uri` a string, and the others what
// they are called.
fn primitive_takes(code: u32, kind: u32) -> bool
    ensures { result ≡ primitive_takes code kind }
{
    if code == 7 {
        return (kind == 2) | (kind == 3);
    }
    if code == 6 {
        return kind == 4;
    }
    code == kind
}

// Whether each element fits node n.
fn list_takes(pairs: &[u64], width: usize, n: u32, elements: &[u32]) -> bool
    requires { ListIn pairs.now width n elements.now }
    ensures { result ≡ each (pair pairs.now width n) (map child elements.now) }
{
    elements
        .iter()
        .all(|word| fits_pair(pairs, width, n, child(*word)))
}

// Whether the set type with these words takes a set of these field words.
fn attr_set_takes(node: &[u32], pairs: &[u64], width: usize, value: &[u32]) -> bool
    requires { SetsIn node.now pairs.now width value.now }
    ensures { SetTakes node.now value.now pairs.now width result }
{
    let head = Head { word: node[0] };
    let opened = head.opened();
    let dynamic = head.dynamic();
    let body = &node[1..];
    if !dynamic {
        return set_takes(body, value, pairs, width, Other::Open(opened));
    }
    let last = body.len() - 1;
    let other = Other::Type(child(body[last]));
    set_takes(&body[..last], value, pairs, width, other)
}

// Whether the primitive, list or set with these words takes the value with those.
fn takes(node: &[u32], kind: u32, pairs: &[u64], width: usize, value: &[u32]) -> bool
    requires node_in { NodeIn node.now pairs.now width }
    requires value_in { ValueIn value.now width }
    requires holding { Holding node.now kind }
    ensures { Takes node.now value.now pairs.now width result }
{
    let of = kind_in(value);
    if kind == Head::PRIMITIVE {
        return primitive_takes(node[1], of);
    }
    if kind == Head::LIST {
        if of != LIST {
            return false;
        }
        return list_takes(pairs, width, child(node[1]), &value[1..]);
    }
    if of != SET {
        return false;
    }
    attr_set_takes(node, pairs, width, &value[1..])
}

// Puts value v into a row if the node takes it.
fn mark(row: &mut [u64; 16], v: u32, taken: bool)
    requires { v / 64 < length row.old }
    ensures { Marks taken v row.old row.new }
{
    if taken {
        put_row(row, v);
    }
}

// The row of a primitive, a list or a set.
pub fn taken_row(
    node: &[u32],
    kind: u32,
    pairs: &[u64],
    width: usize,
    fix: &[u32],
    places: &[usize],
    count: usize,
) -> [u64; 16]
    requires against { Against node.now pairs.now width fix.now places.now count }
    requires holding { Holding node.now kind }
    ensures { RowOf node.now pairs.now width fix.now places.now count result }
{
    let mut row = [0u64; 16];
    for v in 0..count {
        let taken = takes(node, kind, pairs, width, value_at(fix, places, count, v));
        mark(&mut row, v as u32, taken);
    }
    row
}
