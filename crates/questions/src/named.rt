// What a named type stands for.
ghost use Rattle.std.specs.Prelude.{◌≡◌};
ghost use Rattle.node_store.specs.Inner.Stored.{Lent, InRange};
ghost use Rattle.walks.specs.Asked.{ask_reply};
ghost use Rattle.walks.specs.Inner.Asked.{Says, Answers};
ghost use Rattle.questions.specs.Named.{unwrap_named};

use node_reading::nodes::{first_child, kind_at};
use soundness::judge;
use types::arc_ty::{Head, wide};
use types::{Counters, Refusal};

// The first node on the way down from the root that is no named type.
fn stands_for(words: &[u32], starts: &[u32], c: Counters, root: usize) -> usize
    requires { InRange words.now starts.now c root }
    ensures { Says unwrap_named words.now starts.now c root result }
{
    let mut n = root;
    let mut kind = kind_at(words, starts, c, n);
    // No `for`: how many named types lie on the way isn't known before.
    while kind == Head::NAMED {
        n = first_child(words, starts, c, n);
        kind = kind_at(words, starts, c, n);
    }
    n
}

// What the root stands for, in an arena that is known to be sound.
fn unwrap_in(words: &[u32], starts: &[u32], c: Counters, root: usize) -> Result<usize, Refusal>
    requires { Lent words.now starts.now c }
    ensures { Answers unwrap_named words.now starts.now c root result }
{
    if root >= c.nodes {
        return Err(Refusal::NoSuchRoot);
    }
    Ok(stands_for(words, starts, c, root))
}

// What the root stands for.
pub fn unwrap_named(
    table: &[u8],
    words: &[u32],
    starts: &[u32],
    c: Counters,
    root: u32,
) -> Result<usize, Refusal>
    ensures { result ≡ ask_reply unwrap_named table.now words.now starts.now c root }
{
    judge(table, words, starts, c)?;
    unwrap_in(words, starts, c, wide(root))
}
