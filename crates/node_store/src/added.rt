// A node put behind the last one.
ghost use Rattle.node_store.specs.Inner.Added.{Room, Pasted, Fresh, Absent, Interns};

use crate::stored::find;
use types::{Counters, Refusal};

// The words of `node` written from `at` on. Word by word: std's `copy_from_slice` calls `memmove`, and a host brings `memcpy` and
// `memset` alone.
fn put(words: &mut [u32], at: usize, node: &[u32])
    requires { Room words.old at node.now }
    ensures { Pasted words.old at node.now words.new }
{
    for i in 0..node.len() {
        let k = at + i;
        words[k] = node[i];
    }
}

// Adds the node with these words, which the arena doesn't have. For callers that know the arena sound and the node well formed
// and new: none of it is checked again.
pub fn add_node(
    words: &mut [u32],
    starts: &mut [u32],
    c: Counters,
    node: &[u32],
) -> Result<(u32, Counters), Refusal>
    requires fresh { Fresh words.old starts.old c node.now }
    requires absent { Absent words.old starts.old c node.now }
    ensures { Interns words.old starts.old c node.now words.new starts.new result }
{
    let nodes = c.nodes;
    let used = c.words;
    if starts.len() - nodes < 1 {
        return Err(Refusal::NoRoom);
    }
    if words.len() - used < node.len() {
        return Err(Refusal::NoRoom);
    }
    starts[nodes] = used as u32;
    put(words, used, node);
    let d = Counters {
        nodes: nodes + 1,
        words: used + node.len(),
    };
    Ok((nodes as u32, d))
}

// The number of the node with the words of `node`, which is added where the arena has none. For callers that know the arena
// sound and the node well formed: neither is checked again.
pub fn intern_node(
    words: &mut [u32],
    starts: &mut [u32],
    c: Counters,
    node: &[u32],
) -> Result<(u32, Counters), Refusal>
    requires { Fresh words.old starts.old c node.now }
    ensures { Interns words.old starts.old c node.now words.new starts.new result }
{
    if let Some(i) = find(words, starts, c, node) {
        return Ok((i as u32, c));
    }
    add_node(words, starts, c, node)
}
