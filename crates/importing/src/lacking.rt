// Whether a type has a name that the target's table lacks.
ghost use Rattle.std.specs.Prelude.{◌≡◌, length};
ghost use Rattle.node_store.specs.Inner.Stored.{InRange};
ghost use Rattle.walks.specs.Inner.Asked.{Says};
ghost use Rattle.importing.specs.Import.{lacks};
ghost use Rattle.importing.specs.Inner.Names.{by_map, LacksMet};

use crate::fields::lacks_own;
use bits::test;
use node_store::stored::node_at;
use types::Counters;
use walks::reach::reachable;

// Whether node n is in the set and carries such a name.
fn lacks_met(
    words: &[u32],
    starts: &[u32],
    c: Counters,
    n: usize,
    met: &[u64; 64],
    names: &[u32; 4096],
) -> bool
    requires in_range { InRange words.now starts.now c n }
    requires names_len { length names.now ≡ 4096 }
    ensures { LacksMet words.now starts.now c n met.now names.now result }
{
    if !test(met, n as u32) {
        return false;
    }
    lacks_own(names, node_at(words, starts, c, n))
}

// Whether a node that is reachable from the root carries one.
pub fn lacks_name(
    words: &[u32],
    starts: &[u32],
    c: Counters,
    root: usize,
    names: &[u32; 4096],
) -> bool
    requires in_range { InRange words.now starts.now c root }
    requires names_len { length names.now ≡ 4096 }
    ensures { Says (lacks (by_map names.now)) words.now starts.now c root result }
{
    let met = reachable(words, starts, c, root);
    for n in 0..c.nodes {
        if lacks_met(words, starts, c, n, &met, names) {
            return true;
        }
    }
    false
}
