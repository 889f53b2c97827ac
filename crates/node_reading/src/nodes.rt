// What is read of a node: its kind, and the first child of a lambda, a named type or `Neg`.
ghost use Rattle.std.specs.Prelude.{◌≡◌, get_or};
ghost use Rattle.words.specs.Words.{head_kind};
ghost use Rattle.node_store.specs.Inner.Stored.{InRange};
ghost use Rattle.node_reading.specs.Inner.{KindAt, ParentAt, FirstChild};

use node_store::children::child_words;
use node_store::stored::node_at;
use types::Counters;
use types::arc_ty::{Head, child, wide};

// The kind in the head of a node's words.
pub fn kind_in(node: &[u32]) -> u32
    ensures { result ≡ head_kind (get_or node.now 0 0) }
{
    if node.len() == 0 {
        return 0;
    }
    let head = Head { word: node[0] };
    head.kind()
}

// The kind of node n.
pub fn kind_at(words: &[u32], starts: &[u32], c: Counters, n: usize) -> u32
    requires { InRange words.now starts.now c n }
    ensures { KindAt words.now starts.now c n result }
{
    kind_in(node_at(words, starts, c, n))
}

// The first child of node n, which is a lambda, a named type or `Neg`.
pub fn first_child(words: &[u32], starts: &[u32], c: Counters, n: usize) -> usize
    requires { ParentAt words.now starts.now c n }
    ensures { FirstChild words.now starts.now c n result }
{
    let body = child_words(node_at(words, starts, c, n));
    wide(child(body[0]))
}
