// The text of a type in lent bytes. `display` and `display_nix` are the calls open to a host; `display_in` is for callers that
// know the arena sound and its root there. specs/Reply.antt says what they answer and leave.
#![tactic(auto)]

ghost use Rattle.std.specs.Prelude.{◌≡◌, min, length, replicate};
ghost use Rattle.names.specs.Inner.{Listable, Places};
ghost use Rattle.node_store.specs.Inner.Stored.{Lent, InRange};
ghost use Rattle.display.specs.Inner.{Prints};
ghost use Rattle.display.specs.Reply.{print_reply, display_reply, display_nix_reply, left};
ghost use Rattle.display.specs.Inner.{Displays, DisplaysRoot};

use names::find_places;
use node_store::stored::node_at;
use soundness::judge;
use spelling::Spelling;
use text_writing::children::{child_of, close_child, open_child};
use text_writing::pieces::{shown_count, write_beginning, write_ending};
use types::arc_ty::wide;
use types::{Counters, Refusal};

// The most bytes that a text may have.
const LIMIT: usize = 65536;

// The most that it may have in so many lent bytes.
fn limit_of(lent: usize) -> usize
    ensures { result ≡ min lent 65536 }
{
    lent.min(LIMIT)
}

// Writes the text of node n behind the first `count` bytes. A text can have exponentially many bytes: once it doesn't fit,
// a call returns at once.
fn write_ty(
    table: &[u8],
    places: &[u32; 4096],
    spelling: Spelling,
    words: &[u32],
    starts: &[u32],
    c: Counters,
    n: u32,
    text: &mut [u8],
    count: usize,
) -> usize
    requires in_range { InRange words.now starts.now c n }
    requires places { Places table.now places.now }
    ensures { Prints spelling table.now words.now starts.now c n text.old
        count text.new result }
{
    if count > text.len() {
        return count;
    }
    let node = node_at(words, starts, c, wide(n));
    let children = shown_count(node);
    let mut end = write_beginning(table, places, spelling, node, text, count);
    for i in 0..children {
        end = open_child(table, places, spelling, words, starts, c, n, i, text, end);
        let child = child_of(words, starts, c, n, i);
        end = write_ty(table, places, spelling, words, starts, c, child, text, end);
        end = close_child(words, starts, c, n, i, text, end);
    }
    write_ending(node, text, end)
}

// Zeros throughout.
fn clear(text: &mut [u8])
    ensures { text.new ≡ replicate (length text.old) 0 }
{
    text.fill(0);
}

// The text of the root's type, in an arena that is known to be sound. A text that fits is no longer than the limit.
pub fn display_in(
    table: &[u8],
    spelling: Spelling,
    words: &[u32],
    starts: &[u32],
    c: Counters,
    root: u32,
    text: &mut [u8],
) -> Result<usize, Refusal>
    requires in_range { InRange words.now starts.now c root }
    requires listable { Listable table.now }
    ensures { Displays spelling table.now words.now starts.now c root
        text.old text.new result }
{
    let limit = limit_of(text.len());
    let mut places = [0u32; 4096];
    find_places(table, &mut places);
    let end = write_ty(
        table,
        &places,
        spelling,
        words,
        starts,
        c,
        root,
        &mut text[..limit],
        0,
    );
    if end > limit {
        clear(text);
        return Err(Refusal::TextTooLong);
    }
    Ok(end)
}

// The same after 1 and 2.
fn display_root(
    table: &[u8],
    spelling: Spelling,
    words: &[u32],
    starts: &[u32],
    c: Counters,
    root: u32,
    text: &mut [u8],
) -> Result<usize, Refusal>
    requires lent { Lent words.now starts.now c }
    requires listable { Listable table.now }
    ensures { DisplaysRoot spelling table.now words.now starts.now c root text.old
        text.new result }
{
    if wide(root) >= c.nodes {
        return Err(Refusal::NoSuchRoot);
    }
    display_in(table, spelling, words, starts, c, root, text)
}

// The text of the root's type, its names so spelled, or a refusal.
fn print(
    table: &[u8],
    spelling: Spelling,
    words: &[u32],
    starts: &[u32],
    c: Counters,
    root: u32,
    text: &mut [u8],
) -> Result<usize, Refusal>
    ensures { left result text.new
        ≡ print_reply spelling table.now words.now starts.now c root text.old }
{
    judge(table, words, starts, c)?;
    display_root(table, spelling, words, starts, c, root, text)
}

// The text of the root's type, its names as they stand in the table.
pub fn display(
    table: &[u8],
    words: &[u32],
    starts: &[u32],
    c: Counters,
    root: u32,
    text: &mut [u8],
) -> Result<usize, Refusal>
    ensures { left result text.new
        ≡ display_reply table.now words.now starts.now c root text.old }
{
    print(table, Spelling::Bare, words, starts, c, root, text)
}

// The same, its names as the Nix manual writes them.
pub fn display_nix(
    table: &[u8],
    words: &[u32],
    starts: &[u32],
    c: Counters,
    root: u32,
    text: &mut [u8],
) -> Result<usize, Refusal>
    ensures { left result text.new
        ≡ display_nix_reply table.now words.now starts.now c root text.old }
{
    print(table, Spelling::Nix, words, starts, c, root, text)
}
