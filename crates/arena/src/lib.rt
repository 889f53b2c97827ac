// `intern` and `compare`, two calls open to a host. specs/Intern.antt and specs/Compare.antt say what they answer and leave.
#![tactic(auto)]

ghost use Rattle.std.specs.Prelude.{◌≡◌};
ghost use Rattle.arena.specs.Intern.{intern_reply};
ghost use Rattle.arena.specs.Inner.{InternsWords};
ghost use Rattle.arena.specs.Compare.{compare_reply};
ghost use Rattle.arena.specs.Inner.{ComparesIn};
ghost use Rattle.node_store.specs.Inner.Stored.{Lent};
ghost use Rattle.node_store.specs.Intern.{left};
ghost use Rattle.node_store.specs.Inner.Added.{Under};

use node_faults::check_node;
use node_store::added::intern_node;
use node_store::stored::order_of;
use soundness::judge;
use types::arc_ty::wide;
use types::{Counters, Ordering, Refusal};

// The number of the node with the words of `node`, if they have no fault, in an arena that is known to be sound.
fn intern_words(
    words: &mut [u32],
    starts: &mut [u32],
    c: Counters,
    names: usize,
    node: &[u32],
) -> Result<(u32, Counters), Refusal>
    requires { Under names words.old starts.old c }
    ensures { InternsWords names words.old starts.old c node.now words.new
        starts.new result }
{
    check_node(node, c.nodes, names)?;
    intern_node(words, starts, c, node)
}

// The number of the node with the words of `node`, which is added where the arena has none.
pub fn intern(
    table: &[u8],
    words: &mut [u32],
    starts: &mut [u32],
    c: Counters,
    node: &[u32],
) -> Result<(u32, Counters), Refusal>
    ensures { left c result words.new starts.new
        ≡ intern_reply table.now words.old starts.old c node.now }
{
    let count = judge(table, words, starts, c)?;
    intern_words(words, starts, c, count, node)
}

// How the nodes m and n stand in an arena that is known to be sound.
fn compare_in(
    words: &[u32],
    starts: &[u32],
    c: Counters,
    m: usize,
    n: usize,
) -> Result<Ordering, Refusal>
    requires { Lent words.now starts.now c }
    ensures { ComparesIn words.now starts.now c m n result }
{
    if m >= c.nodes || n >= c.nodes {
        return Err(Refusal::NoSuchRoot);
    }
    Ok(order_of(words, starts, c, m, n))
}

// How the nodes m and n stand in order.
pub fn compare(
    table: &[u8],
    words: &[u32],
    starts: &[u32],
    c: Counters,
    m: u32,
    n: u32,
) -> Result<Ordering, Refusal>
    ensures { result ≡ compare_reply table.now words.now starts.now c m n }
{
    judge(table, words, starts, c)?;
    compare_in(words, starts, c, wide(m), wide(n))
}
