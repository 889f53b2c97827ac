// A Bloom filter over the nodes of an arena: three bits of the hash of each node's words are set. A node of which one bit isn't
// set is none of them, and needs no search. Nothing is asked of the hash: where many nodes share one, more is searched.
#![tactic(auto)]

ghost use Rattle.std.specs.Prelude.{◌<◌, ◌≡◌, length};
ghost use Rattle.node_store.specs.Inner.Stored.{Lent, Searched, FoundIn};
ghost use Rattle.node_store.specs.Inner.Added.{Fresh, Interns};
ghost use Rattle.node_filter.specs.Inner.Hash.{mixed, hash_of, BitIn};
ghost use Rattle.node_filter.specs.Inner.Filter.{MayHave, Sets, CoversLent, CoversAfter};

use bits::{put_row, test_row};
use node_store::added::add_node;
use node_store::stored::{find, is_there, node_at};
use types::arc_ty::wide;
use types::{Counters, Refusal};

// One more word of a node in its hash. The factor is 2^32 over the golden ratio: products of near numbers lie far apart.
fn mix(x: u32, h: u32) -> u32
    ensures { result ≡ mixed x h }
{
    let sum = ((x as u64) + (h as u64)) % 4294967296;
    (sum * 2654435769 / 8192 % 4294967296) as u32
}

// A number that equal nodes share.
pub fn hash(node: &[u32]) -> u32
    ensures { result ≡ hash_of node.now }
{
    let mut h = 0;
    for i in (0..node.len()).rev() {
        h = mix(node[i], h);
    }
    h
}

// A bit of a hash. All bits of one hash lie in one word of the filter.
fn bit(h: u32, part: u32) -> u32
    requires { 0 < part }
    ensures { BitIn part h result }
{
    h / 2097152 * 64 + h / part % 64
}

// Whether a node with this hash may be one of those in the filter.
fn may_have(filter: &[u64; 2048], h: u32) -> bool
    ensures { MayHave filter.now h result }
{
    if !test_row(filter, bit(h, 1)) {
        return false;
    }
    if !test_row(filter, bit(h, 64)) {
        return false;
    }
    test_row(filter, bit(h, 4096))
}

// Sets the bits of a hash.
pub fn set_bits(filter: &mut [u64; 2048], h: u32)
    requires { length filter.old ≡ 2048 }
    ensures { Sets filter.old h filter.new }
{
    put_row(filter, bit(h, 1));
    put_row(filter, bit(h, 64));
    put_row(filter, bit(h, 4096));
}

// `find` of a node with this hash, in an arena whose nodes are in the filter.
pub fn find_filtered(
    words: &[u32],
    starts: &[u32],
    c: Counters,
    node: &[u32],
    h: u32,
    filter: &[u64; 2048],
) -> Option<usize>
    requires searched { Searched words.now starts.now c node.now }
    requires covers_lent { CoversLent words.now starts.now c filter.now }
    requires h_value { h ≡ hash_of node.now }
    ensures { FoundIn words.now starts.now c node.now result }
{
    if !may_have(filter, h) {
        return None;
    }
    find(words, starts, c, node)
}

// `intern_node` in an arena whose nodes are in the filter; a node that is added is put there.
pub fn intern_filtered(
    words: &mut [u32],
    starts: &mut [u32],
    c: Counters,
    node: &[u32],
    filter: &mut [u64; 2048],
) -> Result<(u32, Counters), Refusal>
    requires fresh { Fresh words.old starts.old c node.now }
    requires covers_lent { CoversLent words.old starts.old c filter.old }
    ensures interns { Interns words.old starts.old c node.now words.new starts.new result }
    ensures covers_after { CoversAfter words.new starts.new result filter.new }
{
    let h = hash(node);
    if let Some(i) = find_filtered(words, starts, c, node, h, filter) {
        return Ok((i as u32, c));
    }
    set_bits(filter, h);
    add_node(words, starts, c, node)
}

// The same, where node `near` is compared first: a list that came out as it was is its own number.
pub fn intern_near(
    words: &mut [u32],
    starts: &mut [u32],
    c: Counters,
    node: &[u32],
    near: u32,
    filter: &mut [u64; 2048],
) -> Result<(u32, Counters), Refusal>
    requires fresh { Fresh words.old starts.old c node.now }
    requires near_lt_nodes { near < c.nodes }
    requires covers_lent { CoversLent words.old starts.old c filter.old }
    ensures interns { Interns words.old starts.old c node.now words.new starts.new result }
    ensures covers_after { CoversAfter words.new starts.new result filter.new }
{
    if is_there(words, starts, c, wide(near), node) {
        return Ok((near, c));
    }
    intern_filtered(words, starts, c, node, filter)
}

// Puts the nodes of the arena into the filter.
pub fn set_all_bits(words: &[u32], starts: &[u32], c: Counters, filter: &mut [u64; 2048])
    requires lent { Lent words.now starts.now c }
    requires filter_len { length filter.old ≡ 2048 }
    ensures { CoversLent words.now starts.now c filter.new }
{
    for n in 0..c.nodes {
        set_bits(filter, hash(node_at(words, starts, c, n)));
    }
}
