// Which nodes have a place in the type of a root, by sign. Children have lower numbers, so one loop from the root down meets
// each node after all that lead to it, at most once with each sign.
ghost use Rattle.std.specs.Prelude.{◌<◌, ◌≡◌};
ghost use Rattle.bits.specs.Bits.{has};
ghost use Rattle.node_store.specs.Inner.Stored.{InRange};
ghost use Rattle.walks.specs.Inner.Signs.{sign_of, turned, flag_after, Rows, Room, Adds, AddsWords, AddsAll, Visits, Marking};
ghost use Rattle.walks.specs.Inner.Signs.{SignsIn, side};

use bits::{put, test};
use node_store::children::child_words;
use node_store::stored::node_at;
use types::Counters;
use types::arc_ty::{Head, child};

// Whether a node of this kind turns the sign of child i: `Neg` does, and a lambda that of its param.
fn turns(kind: u32, i: usize) -> bool
    ensures { result ≡ turned kind i }
{
    (kind == Head::NEG) | ((kind == Head::LAMBDA) & (i == 0))
}

// The sign of a child, as a flag: its parent's, turned or not.
fn sign_after(sign: bool, turn: bool) -> bool
    ensures { result ≡ flag_after sign turn }
{
    if turn {
        return !sign;
    }
    sign
}

// Puts n into the set of a sign.
fn add(positive: &mut [u64; 64], negative: &mut [u64; 64], sign: bool, n: u32)
    requires { Room positive.old negative.old n }
    ensures { Adds positive.old negative.old (sign_of sign) n positive.new negative.new }
{
    if sign {
        put(positive, n);
    } else {
        put(negative, n);
    }
}

// Puts the children in the words of a node, which stands at a sign, into the sets of their signs.
fn add_all(node: &[u32], sign: bool, positive: &mut [u64; 64], negative: &mut [u64; 64])
    requires { Rows positive.old negative.old }
    ensures { AddsWords node.now sign positive.old negative.old positive.new
        negative.new }
{
    if node.is_empty() {
        return;
    }
    let head = Head { word: node[0] };
    let kind = head.kind();
    for (i, word) in child_words(node).iter().enumerate() {
        let next = sign_after(sign, turns(kind, i));
        add(positive, negative, next, child(*word));
    }
}

// Puts the children of node n, which stands at a sign, into the sets of their signs.
fn add_children(
    words: &[u32],
    starts: &[u32],
    c: Counters,
    n: usize,
    sign: bool,
    positive: &mut [u64; 64],
    negative: &mut [u64; 64],
)
    requires { Marking words.now starts.now c n positive.old negative.old }
    ensures { AddsAll words.now starts.now c n (sign_of sign) positive.old negative.old
        positive.new negative.new }
{
    add_all(node_at(words, starts, c, n), sign, positive, negative);
}

// Puts the children of node n into the sets of their signs, if the node itself stands at this sign.
fn visit(
    words: &[u32],
    starts: &[u32],
    c: Counters,
    n: usize,
    sign: bool,
    positive: &mut [u64; 64],
    negative: &mut [u64; 64],
)
    requires { Marking words.now starts.now c n positive.old negative.old }
    ensures { Visits words.now starts.now c n (sign_of sign) positive.old negative.old
        positive.new negative.new }
{
    let there = stands(n, sign, positive, negative);
    if there {
        add_children(words, starts, c, n, sign, positive, negative);
    }
}

// Whether n is in the set of a sign.
fn stands(n: usize, sign: bool, positive: &[u64; 64], negative: &[u64; 64]) -> bool
    requires { n < 4096 }
    ensures { result ≡ has (side (sign_of sign) positive.now negative.now) n }
{
    if sign {
        return test(positive, n as u32);
    }
    test(negative, n as u32)
}

// The nodes with a positive place, and those with a negative one, a bit for each.
#[derive(Clone, Copy)]
pub struct Signs {
    pub positive: [u64; 64],
    pub negative: [u64; 64],
}

// Which nodes have a place in the type of the root, which is positive, by sign.
pub fn signs_of(words: &[u32], starts: &[u32], c: Counters, root: usize) -> Signs
    requires { InRange words.now starts.now c root }
    ensures { SignsIn words.now starts.now c root result.positive result.negative }
{
    let mut positive = [0u64; 64];
    let mut negative = [0u64; 64];
    put(&mut positive, root as u32);
    for n in (0..root + 1).rev() {
        visit(words, starts, c, n, true, &mut positive, &mut negative);
        visit(words, starts, c, n, false, &mut positive, &mut negative);
    }
    Signs { positive, negative }
}
