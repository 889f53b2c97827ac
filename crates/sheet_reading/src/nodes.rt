// The nodes of a sheet, read into lent memory. The arena in memory is known to be sound, and stays so: it isn't checked again.
ghost use Rattle.node_store.specs.Inner.Added.{Under};
ghost use Rattle.node_filter.specs.Inner.Filter.{CoversLent, CoversAfter};
ghost use Rattle.sheet_reading.specs.Inner.Steps.{
  Here,
  ReadsWords,
  Stretch,
  WordRoom,
  Copied,
  Copying,
  Renews,
  CopiedAs,
  AddsNode,
  Ready,
  StoresNode,
  CoversNodes,
  ReadyEmpty,
  StoresNodes,
};

use crate::bytes::word;
use node_faults::{check_node, head_fits};
use node_filter::intern_filtered;
use node_order::field_count;
use types::arc_ty::{Head, wide};
use types::attrset::renewed;
use types::{Counters, Refusal};
use words::Layout;

// Where the node ends whose head stands at `at`: the head is judged before the body is read.
fn node_end(bytes: &[u8], at: usize) -> Result<usize, Refusal>
    requires { Here bytes.now at }
    ensures { ReadsWords bytes.now at result }
{
    let left = bytes.len() - at;
    if left < 4 {
        return Err(Refusal::MalformedSheet);
    }
    let head = Head {
        word: word(bytes, at),
    };
    let size = 4 + 4 * head.count();
    let fits = head_fits(head);
    if fits {
        if left < size {
            return Err(Refusal::MalformedSheet);
        }
        let end = at + size;
        return Ok(end);
    }
    Err(Refusal::MalformedNode)
}

// Copies the words that the bytes have, and answers how many.
pub fn copy_words(bytes: &[u8], words: &mut [u32]) -> usize
    requires { WordRoom bytes.now words.old }
    ensures { Copied bytes.now words.old words.new result }
{
    let count = bytes.len() / 4;
    for i in 0..count {
        words[i] = word(bytes, 4 * i);
    }
    count
}

// Puts the node, of so many words, which are of the old layout, into the new one: its field words are renewed.
fn renew_node(node: &mut [u32; 66], count: usize)
    requires { Copying node.old count }
    ensures { Renews node.old count node.new }
{
    let fields = field_count(Head { word: node[0] }, count - 1);
    for i in 0..fields {
        let at = i + 1;
        node[at] = renewed(node[at]);
    }
}

// The words of a node of this layout, in the new one, and how many they are.
fn copy_node(layout: Layout, bytes: &[u8], node: &mut [u32; 66]) -> usize
    requires { Stretch bytes.now node.old }
    ensures { CopiedAs layout bytes.now node.new result }
{
    let count = copy_words(bytes, node);
    match layout {
        Layout::Old => renew_node(node, count),
        Layout::New => {}
    }
    count
}

// Adds the node with these words, which must be without fault and new; the nodes of the arena are in the filter.
fn add_node(
    words: &mut [u32],
    starts: &mut [u32],
    c: Counters,
    names: usize,
    node: &[u32],
    filter: &mut [u64; 2048],
) -> Result<(u32, Counters), Refusal>
    requires under { Under names words.old starts.old c }
    requires covers_lent { CoversLent words.old starts.old c filter.old }
    ensures adds_node { AddsNode names words.old starts.old c node.now words.new
        starts.new result }
    ensures covers_after { CoversAfter words.new starts.new result filter.new }
{
    check_node(node, c.nodes, names)?;
    let (n, d) = intern_filtered(words, starts, c, node, filter)?;
    if wide(n) < c.nodes {
        return Err(Refusal::MalformedSheet);
    }
    Ok((n, d))
}

// Reads the node whose head stands at `at`.
fn read_node(
    layout: Layout,
    bytes: &[u8],
    at: usize,
    words: &mut [u32],
    starts: &mut [u32],
    c: Counters,
    names: usize,
    filter: &mut [u64; 2048],
) -> Result<(usize, Counters), Refusal>
    requires ready { Ready bytes.now at names words.old starts.old c }
    requires covers_lent { CoversLent words.old starts.old c filter.old }
    ensures stores_node { StoresNode layout bytes.now at names words.old starts.old c words.new
        starts.new result }
    ensures covers_nodes { CoversNodes words.new starts.new result filter.new }
{
    let end = node_end(bytes, at)?;
    let mut node = [0u32; 66];
    let count = copy_node(layout, &bytes[at..end], &mut node);
    let (_, d) = add_node(words, starts, c, names, &node[..count], filter)?;
    Ok((end, d))
}

// Reads so many nodes from `first` on into memory that holds none.
pub(crate) fn read_nodes(
    layout: Layout,
    bytes: &[u8],
    first: usize,
    words: &mut [u32],
    starts: &mut [u32],
    names: usize,
    count: usize,
) -> Result<(usize, Counters), Refusal>
    requires { ReadyEmpty bytes.now first names words.old starts.old }
    ensures { StoresNodes layout bytes.now first names count words.old starts.old
        words.new starts.new result }
{
    let mut at = first;
    let mut c = Counters { nodes: 0, words: 0 };
    let mut filter = [0u64; 2048];
    for _ in 0..count {
        let (end, d) = read_node(layout, bytes, at, words, starts, c, names, &mut filter)?;
        at = end;
        c = d;
    }
    Ok((at, c))
}
