// `normalize_set_ops`: unions and intersections flattened, sorted and without repeats.
#![tactic(auto)]

ghost use Rattle.std.specs.Prelude.{◌≡◌};
ghost use Rattle.node_store.specs.Inner.Stored.{Lent, InRange};
ghost use Rattle.node_store.specs.Intern.{left};
ghost use Rattle.recursion.specs.Hosted.{work_reply};
ghost use Rattle.recursion.specs.Inner.Hosted.{Works, WorksLent};
ghost use Rattle.set_op_lists.specs.SetOps.{normalize_set_ops};

use node_filter::set_all_bits;
use recursion::take_back_nodes;
use set_ops_pass::normalize_set_ops_cached;
use soundness::judge;
use types::arc_ty::wide;
use types::{Counters, Refusal};

// In an arena that is known to be sound and has the root. A refusal leaves the nodes that were added.
fn normalize_in(
    words: &mut [u32],
    starts: &mut [u32],
    c: Counters,
    root: u32,
) -> Result<(u32, Counters), Refusal>
    requires { InRange words.old starts.old c root }
    ensures { Works normalize_set_ops words.old starts.old c root words.new
        starts.new result }
{
    let mut cache = [0u32; 4096];
    let mut filter = [0u64; 2048];
    set_all_bits(words, starts, c, &mut filter);
    normalize_set_ops_cached(words, starts, c, root, &mut cache, &mut filter)
}

// The same for any root; a refusal takes back the nodes that were added.
fn normalize_lent(
    words: &mut [u32],
    starts: &mut [u32],
    c: Counters,
    root: u32,
) -> Result<(u32, Counters), Refusal>
    requires { Lent words.old starts.old c }
    ensures { WorksLent normalize_set_ops words.old starts.old c root
        words.new starts.new result }
{
    if wide(root) >= c.nodes {
        return Err(Refusal::NoSuchRoot);
    }
    let r = normalize_in(words, starts, c, root);
    let Err(refusal) = r else {
        return r;
    };
    take_back_nodes(words, starts, c);
    Err(refusal)
}

// The type of the root with every union and intersection flattened, sorted and without repeats.
pub fn normalize_set_ops(
    table: &[u8],
    words: &mut [u32],
    starts: &mut [u32],
    c: Counters,
    root: u32,
) -> Result<(u32, Counters), Refusal>
    ensures { left c result words.new starts.new
        ≡ work_reply normalize_set_ops table.now words.old starts.old c root }
{
    judge(table, words, starts, c)?;
    normalize_lent(words, starts, c, root)
}
