// A node with other children.
ghost use Rattle.std.specs.Prelude.{◌<◌, ◌≡◌, map, take};
ghost use Rattle.words.specs.Words.{child};
ghost use Rattle.types.specs.Same.{same_numbers};
ghost use Rattle.node_filter.specs.Inner.Filter.{CoversLent, CoversAfter};
ghost use Rattle.rebuilding.specs.Inner.Rebuilt.{with_child, OneEach, Exchanging, Exchanged, Rebuilding, Rebuilds};

use node_filter::intern_filtered;
use node_store::children::child_words;
use node_store::stored::node_at;
use types::arc_ty::{child, wide};
use types::{Counters, Refusal};

// Whether the items are the children in the body of a node, of which there are as many.
fn same_children(body: &[u32], items: &[u32; 65], count: usize) -> bool
    requires { OneEach body.now items.now count }
    ensures { result ≡ same_numbers (map child body.now) (take count items.now) }
{
    body.iter()
        .zip(&items[..count])
        .all(|(word, m)| child(*word) == *m)
}

// A field word or a child word with another child, which stands in its lowest bits.
fn with_child(word: u32, m: u32) -> u32
    requires { m < 4096 }
    ensures { result ≡ with_child word m }
{
    word - child(word) + m
}

// Writes the words of a node into `new`, with the items in place of its children.
pub fn exchange(node: &[u32], items: &[u32; 65], count: usize, new: &mut [u32; 66])
    requires { Exchanging node.now items.now count new.old }
    ensures { Exchanged node.now items.now count new.new }
{
    new[0] = node[0];
    let body = &node[1..];
    for i in 0..count {
        new[i + 1] = with_child(body[i], items[i]);
    }
}

// Makes the words of node n with these children, of which there is one at least, and interns them.
fn intern_with(
    words: &mut [u32],
    starts: &mut [u32],
    c: Counters,
    n: u32,
    items: &[u32; 65],
    count: usize,
    filter: &mut [u64; 2048],
) -> Result<(u32, Counters), Refusal>
    requires rebuilding { Rebuilding words.old starts.old c n items.now count }
    requires count_nonzero { 0 < count }
    requires covers_lent { CoversLent words.old starts.old c filter.old }
    ensures rebuilds { Rebuilds words.old starts.old c n items.now count words.new
        starts.new result }
    ensures covers_after { CoversAfter words.new starts.new result filter.new }
{
    let mut new = [0u32; 66];
    exchange(node_at(words, starts, c, wide(n)), items, count, &mut new);
    let len = count + 1;
    intern_filtered(words, starts, c, &new[..len], filter)
}

// Node n with these children in place of its own. With its own it is node n itself, and no search is needed: most nodes of
// most passes are of that kind. As LLVM builds it the new node's words stay out of the frames of the recursions that call this.
#[inline(never)]
pub fn rebuild(
    words: &mut [u32],
    starts: &mut [u32],
    c: Counters,
    n: u32,
    items: &[u32; 65],
    count: usize,
    filter: &mut [u64; 2048],
) -> Result<(u32, Counters), Refusal>
    requires rebuilding { Rebuilding words.old starts.old c n items.now count }
    requires covers_lent { CoversLent words.old starts.old c filter.old }
    ensures rebuilds { Rebuilds words.old starts.old c n items.now count words.new
        starts.new result }
    ensures covers_after { CoversAfter words.new starts.new result filter.new }
{
    let body = child_words(node_at(words, starts, c, wide(n)));
    if same_children(body, items, count) {
        return Ok((n, c));
    }
    intern_with(words, starts, c, n, items, count, filter)
}
