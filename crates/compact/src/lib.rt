// `compact`: the type of a root is copied into an arena that has no other node.
#![tactic(auto)]

ghost use Rattle.std.specs.Prelude.{◌≡◌};
ghost use Rattle.node_store.specs.Inner.Stored.{Lent};
ghost use Rattle.compact.specs.Compact.{compact_reply, left};
ghost use Rattle.compact.specs.Inner.{ClearReady, CompactsCleared, CompactsLent};

use copying::compact_inner;
use recursion::take_back_nodes;
use soundness::judge;
use types::arc_ty::wide;
use types::{Counters, Refusal};

// The answer, and the counters of the target, which a refusal may change too.
#[derive(Clone, Copy, Debug, PartialEq, Eq)]
pub struct Compacted {
    pub answer: Result<u32, Refusal>,
    pub counters: Counters,
}

// The copy in a target that is cleared first; a refused run leaves it cleared.
fn compact_cleared(
    words: &[u32],
    starts: &[u32],
    c: Counters,
    root: u32,
    target_words: &mut [u32],
    target_starts: &mut [u32],
) -> Compacted
    requires { ClearReady words.now starts.now c root target_words.old target_starts.old }
    ensures { CompactsCleared words.now starts.now c root target_words.old
        target_starts.old target_words.new target_starts.new result }
{
    let counters = Counters { nodes: 0, words: 0 };
    take_back_nodes(target_words, target_starts, counters);
    let mut cache = [0u32; 4096];
    let copied = compact_inner(
        words,
        starts,
        c,
        root,
        target_words,
        target_starts,
        counters,
        &mut cache,
    );
    match copied {
        Ok((n, d)) => Compacted {
            answer: Ok(n),
            counters: d,
        },
        Err(refusal) => {
            take_back_nodes(target_words, target_starts, counters);
            Compacted {
                answer: Err(refusal),
                counters,
            }
        }
    }
}

// The copy from a source that is known to be sound: 2 for a target over a limit, then 6.
fn compact_lent(
    words: &[u32],
    starts: &[u32],
    c: Counters,
    root: u32,
    target_words: &mut [u32],
    target_starts: &mut [u32],
    counters: Counters,
) -> Compacted
    requires { Lent words.now starts.now c }
    ensures { CompactsLent words.now starts.now c root target_words.old
        target_starts.old counters target_words.new target_starts.new result }
{
    if (target_words.len() > 16384) | (target_starts.len() > 4096) {
        return Compacted {
            answer: Err(Refusal::UnsoundArena),
            counters,
        };
    }
    if wide(root) >= c.nodes {
        return Compacted {
            answer: Err(Refusal::NoSuchRoot),
            counters,
        };
    }
    compact_cleared(words, starts, c, root, target_words, target_starts)
}

// The type of the root, copied into the target: its nodes are those of the type, each once, children first and from left to
// right. The target's names are the source's, and what it holds doesn't matter.
pub fn compact(
    table: &[u8],
    words: &[u32],
    starts: &[u32],
    c: Counters,
    root: u32,
    target_words: &mut [u32],
    target_starts: &mut [u32],
    counters: Counters,
) -> Compacted
    ensures { left result target_words.new target_starts.new
        ≡ compact_reply table.now words.now starts.now c root target_words.old
        target_starts.old counters }
{
    match judge(table, words, starts, c) {
        Ok(_) => compact_lent(
            words,
            starts,
            c,
            root,
            target_words,
            target_starts,
            counters,
        ),
        Err(refusal) => Compacted {
            answer: Err(refusal),
            counters,
        },
    }
}
