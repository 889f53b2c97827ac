// Pairs of nodes that must be equal if the roots are. In a sound arena different nodes have different trees, so a node of the
// left has at most one partner in the right. Children have lower numbers, so one loop from the left root down meets each node
// after all that lead to it, and every word of the left arena at most once.
ghost use Rattle.std.specs.Prelude.{◌<◌, ◌≡◌, get_or};
ghost use Rattle.types.specs.Fault.{children_in};
ghost use Rattle.equal.specs.Inner.Pairs.{Fit, Gives, Level, GivesAll, Visiting, Visited, Fresh, Decides, Roots, Tells};

use crate::node_data::same_data;
use name_matching::match_names;
use node_store::children::child_words;
use node_store::stored::node_at;
use types::Counters;
use types::arc_ty::{child, wide};

// Gives the node `left` the partner `right` if it has none; false where it has another. A partner is its number and one.
fn pair(partners: &mut [u16; 4096], left: u32, right: u32) -> bool
    requires { Fit partners.old left right }
    ensures { Gives partners.old left right partners.new result }
{
    let at = wide(left);
    let there = usize::from(partners[at]);
    let next = wide(right) + 1;
    if there == 0 {
        partners[at] = next as u16;
        return true;
    }
    there == next
}

// Gives each child in the words `a` the child beside it in the words `b` as its partner; false where one has another.
fn pair_children(a: &[u32], b: &[u32], partners: &mut [u16; 4096]) -> bool
    requires { Level a.now b.now partners.old }
    ensures { GivesAll (children_in a.now) (children_in b.now) partners.old
        partners.new result }
{
    let right = child_words(b);
    for (i, word) in child_words(a).iter().enumerate() {
        if !pair(partners, child(*word), child(right[i])) {
            return false;
        }
    }
    true
}

// The partner of node n: its number and one, or 0.
fn partner_of(partners: &[u16; 4096], n: usize) -> usize
    requires { n < 4096 }
    ensures { result ≡ get_or partners.now n 0 }
{
    usize::from(partners[n])
}

// Compares node n of the left with its partner, if it has one, and pairs their children; false where the two can't be equal.
fn visit(
    names: &[u32; 4096],
    left_words: &[u32],
    left_starts: &[u32],
    left: Counters,
    right_words: &[u32],
    right_starts: &[u32],
    right: Counters,
    n: usize,
    partners: &mut [u16; 4096],
) -> bool
    requires { Visiting names.now left_words.now left_starts.now left right_words.now right_starts.now right n
        partners.old }
    ensures { Visited names.now left_words.now left_starts.now left
        right_words.now right_starts.now right n partners.old partners.new result }
{
    let there = partner_of(partners, n);
    if there == 0 {
        return true;
    }
    let a = node_at(left_words, left_starts, left, n);
    let b = node_at(right_words, right_starts, right, there - 1);
    if !same_data(names, a, b) {
        return false;
    }
    pair_children(a, b, partners)
}

// Pairs the roots, and then all nodes below them; whether no pair is refuted.
fn sweep(
    names: &[u32; 4096],
    left_words: &[u32],
    left_starts: &[u32],
    left: Counters,
    left_root: usize,
    right_words: &[u32],
    right_starts: &[u32],
    right: Counters,
    right_root: usize,
    partners: &mut [u16; 4096],
) -> bool
    requires { Fresh names.now left_words.now left_starts.now left left_root right_words.now right_starts.now
        right right_root partners.old }
    ensures { Decides names.now left_words.now left_starts.now left left_root
        right_words.now right_starts.now right right_root result }
{
    let next = right_root + 1;
    partners[left_root] = next as u16;
    for n in (0..left_root + 1).rev() {
        if !visit(
            names,
            left_words,
            left_starts,
            left,
            right_words,
            right_starts,
            right,
            n,
            partners,
        ) {
            return false;
        }
    }
    true
}

// Whether the type of the left root is structurally equal to that of the right.
pub(crate) fn agree(
    left_table: &[u8],
    left_words: &[u32],
    left_starts: &[u32],
    left: Counters,
    left_root: usize,
    right_table: &[u8],
    right_words: &[u32],
    right_starts: &[u32],
    right: Counters,
    right_root: usize,
) -> bool
    requires { Roots left_table.now left_words.now left_starts.now left left_root right_table.now right_words.now
        right_starts.now right right_root }
    ensures { Tells left_table.now left_words.now left_starts.now left left_root
        right_table.now right_words.now right_starts.now right right_root result }
{
    let mut names = [0u32; 4096];
    match_names(left_table, right_table, &mut names);
    let mut partners = [0u16; 4096];
    sweep(
        &names,
        left_words,
        left_starts,
        left,
        left_root,
        right_words,
        right_starts,
        right,
        right_root,
        &mut partners,
    )
}
