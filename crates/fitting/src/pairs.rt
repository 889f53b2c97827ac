// All pairs of a node of the type and a value of the fix, from node 0 up: children have lower numbers.
ghost use Rattle.std.specs.Prelude.{◌≤◌, ◌≡◌};
ghost use Rattle.fitting.specs.Inner.Taken.{Against, RowOf};
ghost use Rattle.fitting.specs.Inner.Pairs.{row_width, Storing, Stores, Decidable, Rowed, Decides};

use crate::joined::joined_row;
use crate::sets::fits_pair;
use crate::taken::taken_row;
use node_reading::nodes::kind_in;
use node_store::children::child_words;
use node_store::stored::node_at;
use types::Counters;
use types::arc_ty::Head;

// The row of the node with these words.
fn row_of(
    node: &[u32],
    pairs: &[u64],
    width: usize,
    fix: &[u32],
    places: &[usize],
    count: usize,
) -> [u64; 16]
    requires { Against node.now pairs.now width fix.now places.now count }
    ensures { RowOf node.now pairs.now width fix.now places.now count result }
{
    let kind = kind_in(node);
    match kind {
        Head::PRIMITIVE => taken_row(node, kind, pairs, width, fix, places, count),
        Head::LIST => taken_row(node, kind, pairs, width, fix, places, count),
        Head::ATTR_SET => taken_row(node, kind, pairs, width, fix, places, count),
        Head::TY_VAR => [0u64; 16],
        Head::LAMBDA => [0u64; 16],
        _ => joined_row(child_words(node), kind, pairs, width),
    }
}

// Writes a row of so many words from `at` on.
fn store(pairs: &mut [u64], at: usize, row: &[u64; 16], width: usize)
    requires { Storing pairs.old at row.now width }
    ensures { Stores pairs.old at row.now width pairs.new }
{
    pairs[at..at + width].copy_from_slice(&row[..width]);
}

// How many words of 64 bits a row has.
fn row_width(count: usize) -> usize
    requires { count ≤ 1024 }
    ensures { result ≡ row_width count }
{
    (count + 63) / 64
}

// Whether the last value fits the root, once each row up to the root's is made.
fn decide_in(
    words: &[u32],
    starts: &[u32],
    c: Counters,
    root: usize,
    fix: &[u32],
    places: &[usize],
    count: usize,
    pairs: &mut [u64],
) -> bool
    requires { Rowed words.now starts.now c root fix.now places.now count pairs.old }
    ensures { Decides words.now starts.now c root fix.now places.now count result }
{
    let width = row_width(count);
    for n in 0..root + 1 {
        let row = row_of(
            node_at(words, starts, c, n),
            pairs,
            width,
            fix,
            places,
            count,
        );
        store(pairs, n * width, &row, width);
    }
    fits_pair(pairs, width, root as u32, (count - 1) as u32)
}

// The same with rows of its own: few of them where few will do, since all are cleared first.
pub fn decide(
    words: &[u32],
    starts: &[u32],
    c: Counters,
    root: usize,
    fix: &[u32],
    places: &[usize],
    count: usize,
) -> bool
    requires { Decidable words.now starts.now c root fix.now places.now count }
    ensures { Decides words.now starts.now c root fix.now places.now count result }
{
    if (root + 1) * row_width(count) <= 1024 {
        let mut few = [0u64; 1024];
        return decide_in(words, starts, c, root, fix, places, count, &mut few);
    }
    let mut pairs = [0u64; 65536];
    decide_in(words, starts, c, root, fix, places, count, &mut pairs)
}
