// `import_from_arena`: the type of a root is imported from one arena into another, each with its own name table.
#![tactic(auto)]

ghost use Rattle.std.specs.Prelude.{◌<◌, ◌≡◌};
ghost use Rattle.soundness.specs.Inner.Sides.{Side};
ghost use Rattle.node_store.specs.Intern.{left};
ghost use Rattle.import.specs.Import.{import_reply};
ghost use Rattle.import.specs.Inner.{RunReady, Runs, Sides, ImportsIn, ImportsLent, ImportsJudged};

use importing::lacking::lacks_name;
use importing::nodes::import_node;
use name_matching::match_names;
use node_filter::set_all_bits;
use recursion::take_back_nodes;
use soundness::judge;
use types::arc_ty::wide;
use types::{Counters, Refusal};

// The import of a root none of whose names is lacking. A refusal leaves the nodes that were added.
fn import_named(
    words: &[u32],
    starts: &[u32],
    c: Counters,
    root: u32,
    names: &[u32; 4096],
    target_words: &mut [u32],
    target_starts: &mut [u32],
    d: Counters,
) -> Result<(u32, Counters), Refusal>
    requires { RunReady names.now words.now starts.now c root target_words.old target_starts.old d }
    ensures { Runs names.now words.now starts.now c root target_words.old
        target_starts.old d target_words.new target_starts.new result }
{
    let mut cache = [0u32; 4096];
    let mut filter = [0u64; 2048];
    set_all_bits(target_words, target_starts, d, &mut filter);
    import_node(
        words,
        starts,
        c,
        root,
        names,
        target_words,
        target_starts,
        d,
        &mut cache,
        &mut filter,
        0,
    )
}

// The same, after 12 for a name that the target's table lacks. Names are matched once.
fn import_in(
    table: &[u8],
    words: &[u32],
    starts: &[u32],
    c: Counters,
    root: u32,
    target_table: &[u8],
    target_words: &mut [u32],
    target_starts: &mut [u32],
    d: Counters,
) -> Result<(u32, Counters), Refusal>
    requires sides { Sides table.now words.now starts.now c target_table.now target_words.old target_starts.old d }
    requires root_lt_nodes { root < c.nodes }
    ensures { ImportsIn table.now words.now starts.now c root
        target_table.now target_words.old target_starts.old d
        target_words.new target_starts.new result }
{
    let mut names = [0u32; 4096];
    match_names(table, target_table, &mut names);
    if lacks_name(words, starts, c, wide(root), &names) {
        return Err(Refusal::NameAbsent);
    }
    import_named(
        words,
        starts,
        c,
        root,
        &names,
        target_words,
        target_starts,
        d,
    )
}

// The same for any root; a refusal takes back the nodes that were added.
fn import_lent(
    table: &[u8],
    words: &[u32],
    starts: &[u32],
    c: Counters,
    root: u32,
    target_table: &[u8],
    target_words: &mut [u32],
    target_starts: &mut [u32],
    d: Counters,
) -> Result<(u32, Counters), Refusal>
    requires { Sides table.now words.now starts.now c target_table.now target_words.old target_starts.old d }
    ensures { ImportsLent table.now words.now starts.now c root
        target_table.now target_words.old target_starts.old d
        target_words.new target_starts.new result }
{
    if wide(root) >= c.nodes {
        return Err(Refusal::NoSuchRoot);
    }
    let r = import_in(
        table,
        words,
        starts,
        c,
        root,
        target_table,
        target_words,
        target_starts,
        d,
    );
    let Err(refusal) = r else {
        return r;
    };
    take_back_nodes(target_words, target_starts, d);
    Err(refusal)
}

// The same in a target that isn't known to be sound.
fn import_judged(
    table: &[u8],
    words: &[u32],
    starts: &[u32],
    c: Counters,
    root: u32,
    target_table: &[u8],
    target_words: &mut [u32],
    target_starts: &mut [u32],
    d: Counters,
) -> Result<(u32, Counters), Refusal>
    requires { Side table.now words.now starts.now c }
    ensures { ImportsJudged table.now words.now starts.now c root
        target_table.now target_words.old target_starts.old d
        target_words.new target_starts.new result }
{
    judge(target_table, target_words, target_starts, d)?;
    import_lent(
        table,
        words,
        starts,
        c,
        root,
        target_table,
        target_words,
        target_starts,
        d,
    )
}

// The type of the root, imported into the target: its nodes are met children first and from left to right, each once, and each is
// interned with its names found by text in the target's table. The answer is the root's number in the target.
pub fn import_from_arena(
    table: &[u8],
    words: &[u32],
    starts: &[u32],
    c: Counters,
    root: u32,
    target_table: &[u8],
    target_words: &mut [u32],
    target_starts: &mut [u32],
    d: Counters,
) -> Result<(u32, Counters), Refusal>
    ensures { left d result target_words.new target_starts.new
        ≡ import_reply table.now words.now starts.now c root
        target_table.now target_words.old target_starts.old d }
{
    judge(table, words, starts, c)?;
    import_judged(
        table,
        words,
        starts,
        c,
        root,
        target_table,
        target_words,
        target_starts,
        d,
    )
}
