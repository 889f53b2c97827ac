// Which variables a pass may drop: those with places of one sign only. In a sound arena a variable has one node, so a bit a
// node says it.
ghost use Rattle.node_store.specs.Inner.Stored.{InRange};
ghost use Rattle.walks.specs.Inner.Sets.{OneSignedIn};

use crate::signs::signs_of;
use bits::symmetric_difference;
use types::Counters;

// The nodes that have a place of one sign in the type of the root, and none of the other.
pub fn one_signed(words: &[u32], starts: &[u32], c: Counters, root: usize) -> [u64; 64]
    requires { InRange words.now starts.now c root }
    ensures { OneSignedIn words.now starts.now c root result }
{
    let signs = signs_of(words, starts, c, root);
    let positive = signs.positive;
    let negative = signs.negative;
    symmetric_difference(&positive, &negative)
}
