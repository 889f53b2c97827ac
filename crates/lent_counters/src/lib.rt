// `intern` for a host that keeps one arena and lends its counters to be updated: as a struct, or as two numbers. What both
// answer and leave is what `arena` says of `intern`.
#![tactic(auto)]

ghost use Rattle.std.specs.Prelude.{◌≡◌};
ghost use Rattle.types.specs.Reply.{reply};
ghost use Rattle.arena.specs.Intern.{intern_reply};
ghost use Rattle.lent_counters.specs.Inner.{stored, counters_left};

use arena::intern;
use types::{Counters, Refusal};

// The answer without its counters.
fn stored_of(answer: Result<(u32, Counters), Refusal>) -> Result<u32, Refusal>
    ensures { result ≡ stored answer }
{
    let Ok((n, _)) = answer else {
        return Err(answer.unwrap_err());
    };
    Ok(n)
}

// The counters that an answer leaves where they were c: its own, or c after a refusal.
fn counters_after(answer: Result<(u32, Counters), Refusal>, c: Counters) -> Counters
    ensures { result ≡ counters_left c answer }
{
    let Ok((_, d)) = answer else {
        return c;
    };
    d
}

// `intern` with the counters lent as a struct.
pub fn intern_lent(
    table: &[u8],
    words: &mut [u32],
    starts: &mut [u32],
    counters: &mut Counters,
    node: &[u32],
) -> Result<u32, Refusal>
    ensures { reply result counters.new words.new starts.new
        ≡ intern_reply table.now words.old starts.old counters.old node.now }
{
    let c = *counters;
    let answer = intern(table, words, starts, c, node);
    *counters = counters_after(answer, c);
    stored_of(answer)
}

// `intern` with the counters lent as two numbers: no struct is lent, so that its callers are checked like any others.
pub fn intern_lent_pair(
    table: &[u8],
    words: &mut [u32],
    starts: &mut [u32],
    nodes: &mut usize,
    used: &mut usize,
    node: &[u32],
) -> Result<u32, Refusal>
    ensures { reply result record { nodes = nodes.exit.now; words = used.new } words.new
        starts.new
        ≡ intern_reply table.now words.old starts.old
        record { nodes = nodes.entry.now; words = used.old } node.now }
{
    let c = Counters {
        nodes: *nodes,
        words: *used,
    };
    let answer = intern(table, words, starts, c, node);
    let d = counters_after(answer, c);
    *nodes = d.nodes;
    *used = d.words;
    stored_of(answer)
}
