// The calls of the C interface that rewrite a type, a part of the static library (host/archive): each hands its arguments to the
// call of that name and tells the answer as a number, 0 or that of a refusal. A result is written where it is lent; a refusal
// writes none, but 7 clears the target of `compact`.
#![tactic(auto)]

ghost use Rattle.std.specs.Prelude.{◌≡◌, true, false};
ghost use Rattle.recursion.specs.Hosted.{work_reply};
ghost use Rattle.renumber.specs.Renumber.{normalize};
ghost use Rattle.set_op_lists.specs.SetOps.{normalize_set_ops};
ghost use Rattle.compact.specs.Compact.{compact_reply};
ghost use Rattle.import.specs.Import.{import_reply};
ghost use Rattle.lang_ty.specs.Told.{told_arena, tell_arena};
ghost use Rattle.lang_ty_rewriting.specs.Inner.{TellsWorked};
ghost use Rattle.lang_ty_rewriting.specs.Changed.{TellsSimplified};

use compact::compact;
use import::import_from_arena;
use lang_ty::tell;
use renumber::{normalize_replacing_unknown, normalize_vars};
use set_ops::normalize_set_ops;
use simplify::simplify;
use types::{Counters, Refusal};

// What the type of the root becomes, and in how many passes.
#[unsafe(no_mangle)]
pub extern "C" fn lang_ty_simplify(
    table: &[u8],
    words: &mut [u32],
    starts: &mut [u32],
    nodes: &mut usize,
    used: &mut usize,
    root: u32,
    root_after: &mut u32,
    passes: &mut u32,
) -> u32
    ensures { TellsSimplified table.now words.old starts.old
        (record { nodes = nodes.entry.now; words = used.old }) root
        (record { root = root_after.old; made = passes.old }) result
        (record { root = root_after.new; made = passes.new })
        (record { nodes = nodes.exit.now; words = used.new }) words.new starts.new }
{
    let c = Counters {
        nodes: *nodes,
        words: *used,
    };
    let simplified = simplify(table, words, starts, c, root);
    let Ok(done) = simplified else {
        return simplified.unwrap_err().number();
    };
    *nodes = done.counters.nodes;
    *used = done.counters.words;
    *root_after = done.root;
    *passes = done.passes;
    0
}

// What a call that works on a root answers, told to a host.
fn tell_worked(
    answer: Result<(u32, Counters), Refusal>,
    nodes: &mut usize,
    used: &mut usize,
    root_after: &mut u32,
) -> u32
    ensures { TellsWorked (record { nodes = nodes.entry.now; words = used.old }) answer root_after.old result
        root_after.new (record { nodes = nodes.exit.now; words = used.new }) }
{
    let Ok((n, d)) = answer else {
        return answer.unwrap_err().number();
    };
    *nodes = d.nodes;
    *used = d.words;
    *root_after = n;
    0
}

#[unsafe(no_mangle)]
pub extern "C" fn lang_ty_normalize_vars(
    table: &[u8],
    words: &mut [u32],
    starts: &mut [u32],
    nodes: &mut usize,
    used: &mut usize,
    root: u32,
    root_after: &mut u32,
) -> u32
    ensures { told_arena result root_after.new record { nodes = nodes.exit.now; words = used.new }
        words.new starts.new
        ≡ tell_arena root_after.old (work_reply (normalize false) table.now words.old
        starts.old record { nodes = nodes.entry.now; words = used.old } root) }
{
    let c = Counters {
        nodes: *nodes,
        words: *used,
    };
    let answer = normalize_vars(table, words, starts, c, root);
    tell_worked(answer, nodes, used, root_after)
}

#[unsafe(no_mangle)]
pub extern "C" fn lang_ty_normalize_replacing_unknown(
    table: &[u8],
    words: &mut [u32],
    starts: &mut [u32],
    nodes: &mut usize,
    used: &mut usize,
    root: u32,
    root_after: &mut u32,
) -> u32
    ensures { told_arena result root_after.new record { nodes = nodes.exit.now; words = used.new }
        words.new starts.new
        ≡ tell_arena root_after.old (work_reply (normalize true) table.now words.old
        starts.old record { nodes = nodes.entry.now; words = used.old } root) }
{
    let c = Counters {
        nodes: *nodes,
        words: *used,
    };
    let answer = normalize_replacing_unknown(table, words, starts, c, root);
    tell_worked(answer, nodes, used, root_after)
}

#[unsafe(no_mangle)]
pub extern "C" fn lang_ty_normalize_set_ops(
    table: &[u8],
    words: &mut [u32],
    starts: &mut [u32],
    nodes: &mut usize,
    used: &mut usize,
    root: u32,
    root_after: &mut u32,
) -> u32
    ensures { told_arena result root_after.new record { nodes = nodes.exit.now; words = used.new }
        words.new starts.new
        ≡ tell_arena root_after.old (work_reply normalize_set_ops table.now words.old
        starts.old record { nodes = nodes.entry.now; words = used.old } root) }
{
    let c = Counters {
        nodes: *nodes,
        words: *used,
    };
    let answer = normalize_set_ops(table, words, starts, c, root);
    tell_worked(answer, nodes, used, root_after)
}

// The type of the root, copied into a target.
#[unsafe(no_mangle)]
pub extern "C" fn lang_ty_compact(
    table: &[u8],
    words: &[u32],
    starts: &[u32],
    nodes: usize,
    used: usize,
    root: u32,
    target_words: &mut [u32],
    target_starts: &mut [u32],
    target_nodes: &mut usize,
    target_used: &mut usize,
    root_after: &mut u32,
) -> u32
    ensures { told_arena result root_after.new
        record { nodes = target_nodes.new; words = target_used.new } target_words.new
        target_starts.new
        ≡ tell_arena root_after.old (compact_reply table.now words.now starts.now
        record { nodes = nodes; words = used } root target_words.old target_starts.old
        record { nodes = target_nodes.old; words = target_used.old }) }
{
    let c = Counters { nodes, words: used };
    let counters = Counters {
        nodes: *target_nodes,
        words: *target_used,
    };
    let compacted = compact(
        table,
        words,
        starts,
        c,
        root,
        target_words,
        target_starts,
        counters,
    );
    *target_nodes = compacted.counters.nodes;
    *target_used = compacted.counters.words;
    tell(compacted.answer, root_after)
}

// The type of the root, imported into a target with its own name table.
#[unsafe(no_mangle)]
pub extern "C" fn lang_ty_import_from_arena(
    table: &[u8],
    words: &[u32],
    starts: &[u32],
    nodes: usize,
    used: usize,
    root: u32,
    target_table: &[u8],
    target_words: &mut [u32],
    target_starts: &mut [u32],
    target_nodes: &mut usize,
    target_used: &mut usize,
    root_after: &mut u32,
) -> u32
    ensures { told_arena result root_after.new
        record { nodes = target_nodes.new; words = target_used.new } target_words.new
        target_starts.new
        ≡ tell_arena root_after.old (import_reply table.now words.now starts.now
        record { nodes = nodes; words = used } root target_table.now target_words.old
        target_starts.old record { nodes = target_nodes.old; words = target_used.old }) }
{
    let source = Counters { nodes, words: used };
    let target = Counters {
        nodes: *target_nodes,
        words: *target_used,
    };
    let answer = import_from_arena(
        table,
        words,
        starts,
        source,
        root,
        target_table,
        target_words,
        target_starts,
        target,
    );
    tell_worked(answer, target_nodes, target_used, root_after)
}
