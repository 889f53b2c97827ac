// The variables of a type numbered in the order of a first visit: `normalize_vars` and `normalize_replacing_unknown`.
#![tactic(auto)]

ghost use Rattle.std.specs.Prelude.{◌≡◌, true, false};
ghost use Rattle.node_store.specs.Inner.Stored.{Lent, InRange};
ghost use Rattle.node_store.specs.Intern.{left};
ghost use Rattle.recursion.specs.Hosted.{work_reply};
ghost use Rattle.recursion.specs.Inner.Hosted.{Works, WorksLent};
ghost use Rattle.renumber.specs.Renumber.{normalize_vars, normalize};

use free_vars::list_vars;
use node_filter::set_all_bits;
use node_reading::nodes::kind_at;
use node_store::added::intern_node;
use recursion::take_back_nodes;
use renumbering::nodes::renumber_node;
use renumbering::vars::var_words;
use soundness::judge;
use types::arc_ty::{Head, UNKNOWN_TYVAR, wide};
use types::{Counters, Refusal};

// `normalize_vars` in an arena that is known to be sound and has the root. A refusal leaves the nodes that were added.
fn normalize_vars_in(
    words: &mut [u32],
    starts: &mut [u32],
    c: Counters,
    root: u32,
) -> Result<(u32, Counters), Refusal>
    requires { InRange words.old starts.old c root }
    ensures { Works normalize_vars words.old starts.old c root words.new starts.new result }
{
    let mut vars = [0u32; 4096];
    let count = list_vars(words, starts, c, root, &mut vars);
    if count == 0 {
        return Ok((root, c));
    }
    let mut cache = [0u32; 4096];
    let mut filter = [0u64; 2048];
    set_all_bits(words, starts, c, &mut filter);
    renumber_node(
        words,
        starts,
        c,
        root,
        &vars[..count],
        &mut cache,
        &mut filter,
    )
}

// Either call likewise; `unknown` says that a root that is a variable becomes the unknown one.
fn normalize_in(
    words: &mut [u32],
    starts: &mut [u32],
    c: Counters,
    root: u32,
    unknown: bool,
) -> Result<(u32, Counters), Refusal>
    requires { InRange words.old starts.old c root }
    ensures { Works (normalize unknown) words.old starts.old c root words.new
        starts.new result }
{
    if unknown & (kind_at(words, starts, c, wide(root)) == Head::TY_VAR) {
        let node = var_words(UNKNOWN_TYVAR);
        return intern_node(words, starts, c, &node);
    }
    normalize_vars_in(words, starts, c, root)
}

// The same for any root; a refusal takes back the nodes that were added.
fn normalize_lent(
    words: &mut [u32],
    starts: &mut [u32],
    c: Counters,
    root: u32,
    unknown: bool,
) -> Result<(u32, Counters), Refusal>
    requires { Lent words.old starts.old c }
    ensures { WorksLent (normalize unknown) words.old starts.old c root words.new
        starts.new result }
{
    if wide(root) >= c.nodes {
        return Err(Refusal::NoSuchRoot);
    }
    let r = normalize_in(words, starts, c, root, unknown);
    let Err(refusal) = r else {
        return r;
    };
    take_back_nodes(words, starts, c);
    Err(refusal)
}

// The same in any memory.
fn normalize_any(
    table: &[u8],
    words: &mut [u32],
    starts: &mut [u32],
    c: Counters,
    root: u32,
    unknown: bool,
) -> Result<(u32, Counters), Refusal>
    ensures { left c result words.new starts.new
        ≡ work_reply (normalize unknown) table.now words.old starts.old c root }
{
    judge(table, words, starts, c)?;
    normalize_lent(words, starts, c, root, unknown)
}

// The type of the root with its variables numbered from 0 in the order of a first visit.
pub fn normalize_vars(
    table: &[u8],
    words: &mut [u32],
    starts: &mut [u32],
    c: Counters,
    root: u32,
) -> Result<(u32, Counters), Refusal>
    ensures { left c result words.new starts.new
        ≡ work_reply (normalize false) table.now words.old starts.old c root }
{
    normalize_any(table, words, starts, c, root, false)
}

// The same, but a root that is a variable becomes the unknown one.
pub fn normalize_replacing_unknown(
    table: &[u8],
    words: &mut [u32],
    starts: &mut [u32],
    c: Counters,
    root: u32,
) -> Result<(u32, Counters), Refusal>
    ensures { left c result words.new starts.new
        ≡ work_reply (normalize true) table.now words.old starts.old c root }
{
    normalize_any(table, words, starts, c, root, true)
}
