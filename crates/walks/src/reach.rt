// The nodes that a path of children leads to from a root.
ghost use Rattle.std.specs.Prelude.{◌≡◌};
ghost use Rattle.node_store.specs.Inner.Stored.{Lent, InRange};
ghost use Rattle.walks.specs.Asked.{ask_reply};
ghost use Rattle.walks.specs.Inner.Asked.{Answers};
ghost use Rattle.walks.specs.Reach.{reach_count};
ghost use Rattle.walks.specs.Inner.Sets.{ReachIn};

use crate::signs::signs_of;
use bits::{count, union};
use soundness::judge;
use types::arc_ty::wide;
use types::{Counters, Refusal};

// The reachable nodes, a bit for each: those with a place of either sign.
pub fn reachable(words: &[u32], starts: &[u32], c: Counters, root: usize) -> [u64; 64]
    requires { InRange words.now starts.now c root }
    ensures { ReachIn words.now starts.now c root result }
{
    let signs = signs_of(words, starts, c, root);
    let positive = signs.positive;
    let negative = signs.negative;
    union(&positive, &negative)
}

// How many nodes are reachable from the root, in an arena that is known to be sound.
fn count_in(words: &[u32], starts: &[u32], c: Counters, root: usize) -> Result<u32, Refusal>
    requires { Lent words.now starts.now c }
    ensures { Answers reach_count words.now starts.now c root result }
{
    if root >= c.nodes {
        return Err(Refusal::NoSuchRoot);
    }
    let met = reachable(words, starts, c, root);
    Ok(count(&met))
}

// How many nodes are reachable from the root.
pub fn count_reachable(
    table: &[u8],
    words: &[u32],
    starts: &[u32],
    c: Counters,
    root: u32,
) -> Result<u32, Refusal>
    ensures { result ≡ ask_reply reach_count table.now words.now starts.now c root }
{
    judge(table, words, starts, c)?;
    count_in(words, starts, c, wide(root))
}
