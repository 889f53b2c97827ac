// `simplify`: one pass, then more until one changes nothing.
#![tactic(auto)]

ghost use Rattle.node_store.specs.Inner.Stored.{Lent, InRange};
ghost use Rattle.node_filter.specs.Inner.Filter.{CoversLent};
ghost use Rattle.simplify.specs.Simplify.{Promise};
ghost use Rattle.simplify.specs.Inner.{PassRoom, MorePasses, Simplifies, SimplifiesLent};

use node_filter::set_all_bits;
use pass::once::simplify_once;
use recursion::take_back_nodes;
use soundness::judge;
use types::arc_ty::wide;
use types::{Counters, Refusal};

// The passes that may follow the first.
const MORE_PASSES: u32 = 5;

// The root after, how many passes were made, and the counters after.
#[derive(Clone, Copy, Debug, PartialEq, Eq)]
pub struct Simplified {
    pub root: u32,
    pub passes: u32,
    pub counters: Counters,
}

// Up to `most` passes, until one changes nothing; `made` were made before.
fn more_passes(
    words: &mut [u32],
    starts: &mut [u32],
    c: Counters,
    root: u32,
    most: u32,
    made: u32,
    filter: &mut [u64; 2048],
) -> Result<Simplified, Refusal>
    requires pass_room { PassRoom words.old starts.old c root most made }
    requires covers_lent { CoversLent words.old starts.old c filter.old }
    ensures { MorePasses words.old starts.old c root most made words.new starts.new result }
{
    let mut ty = root;
    let mut last = c;
    let mut count = made;
    for _ in 0..most {
        let (next, d) = simplify_once(words, starts, last, ty, filter)?;
        count += 1;
        last = d;
        if next == ty {
            return Ok(Simplified {
                root: ty,
                passes: count,
                counters: last,
            });
        }
        ty = next;
    }
    Ok(Simplified {
        root: ty,
        passes: count,
        counters: last,
    })
}

// All passes, in an arena that is known to be sound and has the root. A refusal leaves the nodes that were added.
pub fn simplify_in(
    words: &mut [u32],
    starts: &mut [u32],
    c: Counters,
    root: u32,
) -> Result<Simplified, Refusal>
    requires { InRange words.old starts.old c root }
    ensures { Simplifies words.old starts.old c root words.new starts.new result }
{
    let mut filter = [0u64; 2048];
    set_all_bits(words, starts, c, &mut filter);
    let (m, d) = simplify_once(words, starts, c, root, &mut filter)?;
    more_passes(words, starts, d, m, MORE_PASSES, 1, &mut filter)
}

// The same for any root; a refusal takes back the nodes that were added.
fn simplify_lent(
    words: &mut [u32],
    starts: &mut [u32],
    c: Counters,
    root: u32,
) -> Result<Simplified, Refusal>
    requires { Lent words.old starts.old c }
    ensures { SimplifiesLent words.old starts.old c root words.new starts.new result }
{
    if wide(root) >= c.nodes {
        return Err(Refusal::NoSuchRoot);
    }
    let r = simplify_in(words, starts, c, root);
    let Err(refusal) = r else {
        return r;
    };
    take_back_nodes(words, starts, c);
    Err(refusal)
}

// What the type of the root becomes.
pub fn simplify(
    table: &[u8],
    words: &mut [u32],
    starts: &mut [u32],
    c: Counters,
    root: u32,
) -> Result<Simplified, Refusal>
    ensures { Promise table.now words.old starts.old c root
        words.new starts.new result }
{
    judge(table, words, starts, c)?;
    simplify_lent(words, starts, c, root)
}
