// Reading a sheet from the front: the first fault met is the answer. specs/Sheet.antt says what a sheet is, specs/Reading.antt
// what `read_sheet` answers.
#![tactic(auto)]

pub mod bytes;
pub mod nodes;
mod table;

ghost use Rattle.std.specs.Prelude.{◌≡◌};
ghost use Rattle.names.specs.Table.{most_names};
ghost use Rattle.sheet_reading.specs.Inner.Reading.{Blank, ReadsSheet, Readable, Opened, ReadsContents};

use bytes::short;
use nodes::read_nodes;
use table::read_names;
use types::arc_ty::wide;
use types::{Counters, Refusal};
use words::Layout;

// What a sheet holds: where its table ends, the counters of its nodes, and its root.
#[derive(Clone, Copy, Debug, PartialEq, Eq)]
pub struct Contents {
    pub end: usize,
    pub counters: Counters,
    pub root: u32,
}

// How many names a sheet may have.
fn most_names(layout: Layout) -> usize
    ensures { result ≡ most_names layout }
{
    match layout {
        Layout::Old => 256,
        Layout::New => 4096,
    }
}

// Names and nodes, from the bytes of the input that may be read.
fn read_contents(
    layout: Layout,
    input: &[u8],
    bytes: &[u8],
    words: &mut [u32],
    starts: &mut [u32],
    names: usize,
    nodes: usize,
    root: u32,
) -> Result<Contents, Refusal>
    requires { Opened input.now bytes.now words.old starts.old }
    ensures { ReadsContents layout input.now bytes.now names nodes root words.new
        starts.new result }
{
    if names > most_names(layout) {
        return Err(Refusal::BadTable);
    }
    let end = read_names(bytes, 6, names)?;
    let (at, c) = read_nodes(layout, bytes, end, words, starts, names, nodes)?;
    if at < input.len() {
        return Err(Refusal::MalformedSheet);
    }
    if wide(root) >= c.nodes {
        return Err(Refusal::NoSuchRoot);
    }
    Ok(Contents {
        end,
        counters: c,
        root,
    })
}

// The bytes that may be read.
fn readable(input: &[u8]) -> &[u8]
    ensures { Readable input.now result.now }
{
    &input[..input.len().min(65536)]
}

// Reads the sheet, of this layout, into memory of full size that is all zero.
pub fn read_sheet(
    layout: Layout,
    input: &[u8],
    words: &mut [u32],
    starts: &mut [u32],
) -> Result<Contents, Refusal>
    requires { Blank words.old starts.old }
    ensures { ReadsSheet layout input.now words.new starts.new result }
{
    let bytes = readable(input);
    if bytes.len() < 6 {
        return Err(Refusal::MalformedSheet);
    }
    let names = wide(short(bytes, 0));
    let nodes = wide(short(bytes, 2));
    read_contents(
        layout,
        input,
        bytes,
        words,
        starts,
        names,
        nodes,
        short(bytes, 4),
    )
}
