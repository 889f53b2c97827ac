// Which children of a node a pass simplifies.
ghost use Rattle.std.specs.Prelude.{◌≡◌, length};
ghost use Rattle.node_store.specs.Inner.Stored.{InRange};
ghost use Rattle.rebuilding.specs.Inner.Children.{RemovesVar, Removes, Drops, Space, Adds, AllChildren, Remains};

use bits::test;
use node_reading::nodes::{first_child, kind_at};
use node_store::children::child_words;
use node_store::stored::node_at;
use types::Counters;
use types::arc_ty::{Head, child, wide};

// The children of a node, in their order: a set with a dynamic part has up to 65.
#[derive(Clone, Copy)]
pub struct Children {
    pub items: [u32; 65],
    pub count: usize,
}

// Whether node m is a variable in the set.
fn is_removable_var(
    words: &[u32],
    starts: &[u32],
    c: Counters,
    m: usize,
    removable: &[u64; 64],
) -> bool
    requires { InRange words.now starts.now c m }
    ensures { RemovesVar words.now starts.now c m removable.now result }
{
    if kind_at(words, starts, c, m) != Head::TY_VAR {
        return false;
    }
    test(removable, m as u32)
}

// Whether the member m is a variable in the set, or `Neg` of one.
fn is_removable_var_member(
    words: &[u32],
    starts: &[u32],
    c: Counters,
    m: u32,
    removable: &[u64; 64],
) -> bool
    requires { InRange words.now starts.now c m }
    ensures { Removes words.now starts.now c m removable.now result }
{
    let n = wide(m);
    if kind_at(words, starts, c, n) == Head::NEG {
        let negated = first_child(words, starts, c, n);
        return is_removable_var(words, starts, c, negated, removable);
    }
    is_removable_var(words, starts, c, n, removable)
}

// The same, but for `keep`, which says that no variable is removable.
fn is_dropped(
    words: &[u32],
    starts: &[u32],
    c: Counters,
    m: u32,
    removable: &[u64; 64],
    keep: bool,
) -> bool
    requires { InRange words.now starts.now c m }
    ensures { Drops words.now starts.now c m removable.now keep result }
{
    if keep {
        return false;
    }
    is_removable_var_member(words, starts, c, m, removable)
}

// Puts m behind the first `count` items, unless it is dropped. How many there are then.
fn add_unless(dropped: bool, m: u32, items: &mut [u32; 65], count: usize) -> usize
    requires { Space items.old count }
    ensures { Adds dropped m items.old count items.new result }
{
    if dropped {
        return count;
    }
    items[count] = m;
    count + 1
}

// All children of node n. With `keep` the set isn't read.
pub fn all_children(words: &[u32], starts: &[u32], c: Counters, n: u32) -> Children
    requires { InRange words.now starts.now c n }
    ensures { AllChildren words.now starts.now c n result }
{
    let none = [0u64; 64];
    let mut items = [0u32; 65];
    let count = remaining(words, starts, c, n, &none, true, &mut items);
    Children { items, count }
}

// Lists those that a pass doesn't drop, where node n is a member list; all of them if `keep` says that no variable is removable.
// How many they are.
pub fn remaining(
    words: &[u32],
    starts: &[u32],
    c: Counters,
    n: u32,
    removable: &[u64; 64],
    keep: bool,
    items: &mut [u32; 65],
) -> usize
    requires in_range { InRange words.now starts.now c n }
    requires len { length items.old ≡ 65 }
    ensures { Remains words.now starts.now c n removable.now keep
        record { items = items.exit.now; count = result } }
{
    let body = child_words(node_at(words, starts, c, wide(n)));
    let mut count = 0;
    for word in body {
        let m = child(*word);
        let dropped = is_dropped(words, starts, c, m, removable, keep);
        count = add_unless(dropped, m, items, count);
    }
    count
}
