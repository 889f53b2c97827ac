// What stands round a child of a stored node.
ghost use Rattle.names.specs.Inner.{Places};
ghost use Rattle.text_writing.specs.Inner.Children.{ChildOf, IsChild, Encloses, Opens, Closes};

use crate::pieces::{in_parens, write_before};
use appending::append_if;
use node_reading::nodes::kind_at;
use node_store::children::child_words;
use node_store::stored::node_at;
use spelling::Spelling;
use types::Counters;
use types::arc_ty::{child, wide};

// The number of child i of node n.
pub fn child_of(words: &[u32], starts: &[u32], c: Counters, n: u32, i: usize) -> u32
    requires { ChildOf words.now starts.now c n i }
    ensures { IsChild words.now starts.now c n i result }
{
    let body = child_words(node_at(words, starts, c, wide(n)));
    child(body[i])
}

// Whether it stands in parentheses.
fn enclosed(words: &[u32], starts: &[u32], c: Counters, n: u32, i: usize) -> bool
    requires { ChildOf words.now starts.now c n i }
    ensures { Encloses words.now starts.now c n i result }
{
    let kind = kind_at(words, starts, c, wide(child_of(words, starts, c, n, i)));
    in_parens(node_at(words, starts, c, wide(n)), i, kind)
}

// Writes what stands before it.
pub fn open_child(
    table: &[u8],
    places: &[u32; 4096],
    spelling: Spelling,
    words: &[u32],
    starts: &[u32],
    c: Counters,
    n: u32,
    i: usize,
    text: &mut [u8],
    count: usize,
) -> usize
    requires child_of { ChildOf words.now starts.now c n i }
    requires places { Places table.now places.now }
    ensures { Opens spelling table.now words.now starts.now c n i text.old count
        text.new result }
{
    let inside = enclosed(words, starts, c, n, i);
    let node = node_at(words, starts, c, wide(n));
    write_before(table, places, spelling, node, i, inside, text, count)
}

// Writes what stands behind it.
pub fn close_child(
    words: &[u32],
    starts: &[u32],
    c: Counters,
    n: u32,
    i: usize,
    text: &mut [u8],
    count: usize,
) -> usize
    requires { ChildOf words.now starts.now c n i }
    ensures { Closes words.now starts.now c n i text.old count text.new result }
{
    append_if(text, count, enclosed(words, starts, c, n, i), b")")
}
