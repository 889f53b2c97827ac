// A member list as it grows: its items and one bit a node are lent, its length goes in and comes back. A bit is set for each member.
ghost use Rattle.std.specs.Prelude.{[], ◌∷◌};
ghost use Rattle.types.specs.Fault.{children_in};
ghost use Rattle.member_lists.specs.Inner.Members.{Growing, Adding, Grows, Splicing, Flattening, Flattens};

use crate::bounds::{kind_of, neutral};
use bits::{put, test};
use node_store::children::child_words;
use node_store::stored::node_at;
use types::arc_ty::{child, wide};
use types::{Counters, Refusal};

// Appends n, unless its bit says that it is there, and says how many members there are then; a 65th is refused.
pub fn append(
    items: &mut [u32; 64],
    met: &mut [u64; 64],
    count: usize,
    n: u32,
) -> Result<usize, Refusal>
    requires { Adding items.old count met.old n }
    ensures { Grows items.old count met.old (n ∷ []) items.new met.new result }
{
    if test(met, n) {
        return Ok(count);
    }
    if count < 64 {
        put(met, n);
        items[count] = n;
        return Ok(count + 1);
    }
    Err(Refusal::TooManyMembers)
}

// Appends the children in the words of a node.
pub fn append_children(
    node: &[u32],
    items: &mut [u32; 64],
    met: &mut [u64; 64],
    count: usize,
) -> Result<usize, Refusal>
    requires { Growing items.old count met.old }
    ensures { Grows items.old count met.old (children_in node.now) items.new
        met.new result }
{
    let body = child_words(node);
    let mut held = count;
    for word in body {
        held = append(items, met, held, child(*word))?;
    }
    Ok(held)
}

// Appends what the member n brings to a list of a kind: a list of that kind its own members, the neutral element nothing, any
// other node itself.
fn splice(
    words: &[u32],
    starts: &[u32],
    c: Counters,
    kind: u32,
    n: u32,
    items: &mut [u32; 64],
    met: &mut [u64; 64],
    count: usize,
) -> Result<usize, Refusal>
    requires { Splicing words.now starts.now c n items.old count met.old }
    ensures { Flattens words.now starts.now c kind (n ∷ []) items.old count met.old
        items.new met.new result }
{
    let own = kind_of(words, starts, c, n);
    if own == kind {
        return append_children(node_at(words, starts, c, wide(n)), items, met, count);
    }
    if own == neutral(kind) {
        return Ok(count);
    }
    append(items, met, count, n)
}

// What the members bring to a list of a kind, from the first on.
pub(crate) fn flatten(
    words: &[u32],
    starts: &[u32],
    c: Counters,
    kind: u32,
    members: &[u32],
    items: &mut [u32; 64],
    met: &mut [u64; 64],
) -> Result<usize, Refusal>
    requires { Flattening words.now starts.now c kind members.now items.old met.old }
    ensures { Flattens words.now starts.now c kind members.now items.old 0
        met.old items.new met.new result }
{
    let mut held = 0;
    for n in members {
        held = splice(words, starts, c, kind, *n, items, met, held)?;
    }
    Ok(held)
}
