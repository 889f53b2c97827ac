// The faults of a node's words: malformed where they aren't the words of any node, out of range where a child or a name isn't
// there, unordered where names don't rise. `head_fits` judges a head alone and `check_node` a whole node, which hands the words after the head, as their own
// stretch, to the function for what its kind has there. types' specs/Fault.antt says the faults in the order of these tests. Most
// nodes have none, and `clean` sees that in one pass.
#![tactic(auto)]

ghost use Rattle.std.specs.Prelude.{◌+◌, ◌-◌, ◌*◌, ◌≡◌, ◌∷◌, map, true, false, length, get_or};
ghost use Rattle.words.specs.Words.{bit, child, child_zero, field_name, field_zero};
ghost use Rattle.types.specs.Kind.{kind_of, disc, attr_set, named, children, code, fields, name};
ghost use Rattle.types.specs.Out.{checked};
ghost use Rattle.types.specs.Node.{below, rising, decode};
ghost use Rattle.types.specs.Fault.{head_fits, each_zero, first, fault};
ghost use Rattle.node_faults.specs.Inner.{within, count_fits, body_fault, kind_fault};
ghost use Rattle.node_faults.specs.Inner.{CleanChildren, CleanFields, Clean, CleanBody};

use types::Refusal;
use types::arc_ty::{Head, child, child_zero, wide};
use types::attrset::{field_name, field_optional, field_zero};

// Whether n is one of low to high.
fn within(low: usize, high: usize, n: usize) -> bool
    ensures { result ≡ within low high n }
{
    (low <= n) & (n <= high)
}

// Whether a node of this kind may have so many body words.
fn count_fits(kind: u32, dynamic: bool, count: usize) -> bool
    ensures { result ≡ count_fits (kind_of kind) dynamic count }
{
    if kind > Head::NEG {
        return false;
    }
    match kind {
        Head::BOTTOM => count == 0,
        Head::TOP => count == 0,
        Head::LAMBDA => count == 2,
        Head::ATTR_SET => if dynamic {
            within(1, 65, count)
        } else {
            within(0, 64, count)
        },
        Head::UNION => within(1, 64, count),
        Head::INTERSECTION => within(1, 64, count),
        _ => count == 1,
    }
}

// Whether a head is free of faults of its own.
pub fn head_fits(head: Head) -> bool
    ensures { result ≡ head_fits head.word }
{
    let kind = head.kind();
    let dynamic = head.dynamic();
    let plain = !head.opened() & !dynamic;
    let flagged = (kind == Head::ATTR_SET) | plain;
    (head.zero() == 0) & (flagged & count_fits(kind, dynamic, head.count()))
}

// Whether the zero field is zero in each child word.
fn children_zero(words: &[u32]) -> bool
    ensures { result ≡ each_zero child_zero words.now }
{
    words.iter().all(|word| child_zero(*word) == 0)
}

// Whether the zero field is zero in each field word.
fn fields_zero(words: &[u32]) -> bool
    ensures { result ≡ each_zero field_zero words.now }
{
    words.iter().all(|word| field_zero(*word) == 0)
}

fn child_number(word: u32) -> usize
    ensures { result ≡ child word }
{
    wide(child(word))
}

// Whether each word's child is one of the nodes.
fn children_below(words: &[u32], nodes: usize) -> bool
    ensures { result ≡ below nodes (map child words.now) }
{
    words.iter().all(|word| child_number(*word) < nodes)
}

// Whether each field's name is one of the table's.
fn names_below(words: &[u32], names: usize) -> bool
    ensures { result ≡ below names (map field_name words.now) }
{
    words.iter().all(|word| field_name(*word) < names)
}

// Whether each field's name has a higher number than the one before.
fn names_rise(words: &[u32]) -> bool
    ensures { result ≡ rising (map field_name words.now) }
{
    words.is_sorted_by(|before, word| field_name(*before) < field_name(*word))
}

// The refusal of the first test that fails.
fn first(fits: bool, linked: bool, rises: bool) -> Result<(), Refusal>
    ensures { result ≡ first fits linked rises }
{
    if !fits {
        Err(Refusal::MalformedNode)
    } else if !linked {
        Err(Refusal::OutOfRange)
    } else if !rises {
        Err(Refusal::UnorderedFields)
    } else {
        Ok(())
    }
}

// The first word, and 0 where there is none.
fn first_word(body: &[u32]) -> u32
    ensures { result ≡ get_or body.now 0 0 }
{
    body.first().copied().unwrap_or(0)
}

// One word: a code. No child or name is looked up.
fn code_fault(body: &[u32]) -> Result<(), Refusal>
    ensures { result ≡ body_fault 0 0 code false body.now }
{
    if first_word(body) < 8 {
        Ok(())
    } else {
        Err(Refusal::MalformedNode)
    }
}

// Child words.
fn children_fault(body: &[u32], nodes: usize) -> Result<(), Refusal>
    ensures { result ≡ body_fault 0 nodes children false body.now }
{
    let fits = children_zero(body);
    let linked = children_below(body, nodes);
    first(fits, linked, true)
}

// How many of a set's body words are field words.
fn field_count(dynamic: bool, count: usize) -> usize
    ensures { result ≡ count - bit dynamic }
{
    count.saturating_sub(usize::from(dynamic))
}

// Field words, then a child word where the set has a dynamic part. Each of them has a child in the same bits.
fn fields_fault(dynamic: bool, body: &[u32], nodes: usize, names: usize) -> Result<(), Refusal>
    ensures { result ≡ body_fault names nodes fields dynamic body.now }
{
    let k = field_count(dynamic, body.len());
    let fields = &body[..k];
    let fits = fields_zero(fields) & children_zero(&body[k..]);
    let linked = children_below(body, nodes) & names_below(fields, names);
    first(fits, linked, names_rise(fields))
}

// One field word as in a set, but it can't be optional.
fn name_fault(body: &[u32], nodes: usize, names: usize) -> Result<(), Refusal>
    ensures { result ≡ body_fault names nodes name false body.now }
{
    let word = first_word(body);
    if field_optional(word) {
        return Err(Refusal::MalformedNode);
    }
    fields_fault(false, body, nodes, names)
}

// The fault of a body under a head of this kind that fits and counts its words.
fn body_fault(
    kind: u32,
    dynamic: bool,
    body: &[u32],
    nodes: usize,
    names: usize,
) -> Result<(), Refusal>
    ensures { result ≡ kind_fault names nodes (kind_of kind) dynamic body.now }
{
    if kind > Head::NEG {
        return Err(Refusal::MalformedNode);
    }
    match kind {
        Head::BOTTOM => Ok(()),
        Head::TOP => Ok(()),
        Head::PRIMITIVE => code_fault(body),
        Head::TY_VAR => Ok(()),
        Head::ATTR_SET => fields_fault(dynamic, body, nodes, names),
        Head::NAMED => name_fault(body, nodes, names),
        _ => children_fault(body, nodes),
    }
}

// Whether each word is the number of a node, and so a child word without fault.
fn all_below(words: &[u32], nodes: usize) -> bool
    ensures { CleanChildren nodes words.now result }
{
    nodes <= 4096 && words.iter().all(|word| wide(*word) < nodes)
}

// The zero field of a field word above its child, as one number: below 4,096 only where the zero field is zero.
fn zero_and_child(word: u32) -> usize
    ensures { result ≡ field_zero word * 4096 + child word }
{
    wide(field_zero(word) * 4096 + child(word))
}

// Whether field words have no fault, in one loop: `low` is the least number that the next name may have.
fn fields_clean(words: &[u32], nodes: usize, names: usize) -> bool
    ensures { CleanFields names nodes words.now result }
{
    if nodes > 4096 {
        return false;
    }
    let mut low = 0;
    for word in words {
        let name = field_name(*word);
        if zero_and_child(*word) >= nodes || name < low {
            return false;
        }
        low = name + 1;
    }
    low <= names
}

// Whether a body is low to high child words without fault.
fn children_clean(low: usize, high: usize, body: &[u32], nodes: usize) -> bool
    ensures { Clean (within low high (length body.now)) (body_fault 0 nodes children false body.now) result }
{
    within(low, high, body.len()) && all_below(body, nodes)
}

// Whether a body is a set's, without fault.
fn set_clean(dynamic: bool, body: &[u32], nodes: usize, names: usize) -> bool
    ensures { CleanBody names nodes (disc attr_set) dynamic body.now result }
{
    if !count_fits(Head::ATTR_SET, dynamic, body.len()) {
        return false;
    }
    let k = field_count(dynamic, body.len());
    fields_clean(&body[..k], nodes, names) & all_below(&body[k..], nodes)
}

// Whether a body is the one field word of a name, without fault.
fn name_clean(body: &[u32], nodes: usize, names: usize) -> bool
    ensures { CleanBody names nodes (disc named) false body.now result }
{
    let [word] = body else {
        return false;
    };
    !field_optional(*word) & fields_clean(body, nodes, names)
}

// Whether a body has no fault under a head of this kind, whose flags are 0.
fn body_clean(kind: u32, body: &[u32], nodes: usize, names: usize) -> bool
    ensures { CleanBody names nodes kind false body.now result }
{
    match kind {
        Head::BOTTOM => body.len() == 0,
        Head::TOP => body.len() == 0,
        Head::PRIMITIVE => (body.len() == 1) & code_fault(body).is_ok(),
        Head::TY_VAR => body.len() == 1,
        Head::LIST => children_clean(1, 1, body, nodes),
        Head::LAMBDA => children_clean(2, 2, body, nodes),
        Head::UNION => children_clean(1, 64, body, nodes),
        Head::INTERSECTION => children_clean(1, 64, body, nodes),
        Head::NAMED => name_clean(body, nodes, names),
        Head::NEG => children_clean(1, 1, body, nodes),
        _ => false,
    }
}

// Whether a node has no fault, in one pass over its words. What it is false of goes to `node_fault`.
fn clean(head: Head, body: &[u32], nodes: usize, names: usize) -> bool
    ensures { Clean true (fault names nodes (head.word ∷ body.now)) result }
{
    let kind = head.kind();
    let dynamic = head.dynamic();
    let counted = (head.zero() == 0) & (head.count() == body.len());
    if kind == Head::ATTR_SET {
        return counted & set_clean(dynamic, body, nodes, names);
    }
    let plain = !head.opened() & !dynamic;
    if !(plain & counted) {
        return false;
    }
    body_clean(kind, body, nodes, names)
}

// The first fault of a head and the words after it.
fn node_fault(head: Head, body: &[u32], nodes: usize, names: usize) -> Result<(), Refusal>
    ensures { result ≡ fault names nodes (head.word ∷ body.now) }
{
    if !head_fits(head) {
        return Err(Refusal::MalformedNode);
    }
    if body.len() != head.count() {
        return Err(Refusal::MalformedNode);
    }
    body_fault(head.kind(), head.dynamic(), body, nodes, names)
}

// Whether words may be a node, after so many nodes and under a table of so many names; else their first fault.
pub fn check_node(node: &[u32], nodes: usize, names: usize) -> Result<(), Refusal>
    ensures { result ≡ checked (decode names nodes node.now) }
{
    let Some((word, body)) = node.split_first() else {
        return Err(Refusal::MalformedNode);
    };
    let head = Head { word: *word };
    if clean(head, body, nodes, names) {
        return Ok(());
    }
    node_fault(head, body, nodes, names)
}
