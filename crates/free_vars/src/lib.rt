// The variables of a type, in the order in which a walk first meets them. Memory is only read.
#![tactic(auto)]

ghost use Rattle.std.specs.Prelude.{◌≡◌, []};
ghost use Rattle.types.specs.Memory.{padded};
ghost use Rattle.node_store.specs.Inner.Stored.{Lent, InRange};
ghost use Rattle.walks.specs.Asked.{ask_reply};
ghost use Rattle.walks.specs.Inner.Asked.{Says};
ghost use Rattle.free_vars.specs.FreeVars.{free_list};
ghost use Rattle.free_vars.specs.Inner.{VarRoom, AddsVar, Collecting, Collects, Lists, ListsIn};

use bits::{put, test};
use node_store::children::child_words;
use node_store::stored::node_at;
use soundness::judge;
use types::arc_ty::{Head, child, wide};
use types::{Counters, Refusal};

// Variables in the order of their first visit, and how many there are; zeros after them.
#[derive(Drop)]
pub struct VarList {
    pub vars: [u32; 4096],
    pub count: usize,
}

// Lists the variable in a node's body behind the others, and marks the node.
fn add_var(
    body: &[u32],
    number: u32,
    done: &mut [u64; 64],
    vars: &mut [u32; 4096],
    count: usize,
) -> usize
    requires { VarRoom body.now number done.old count }
    ensures { AddsVar body.now number done.old vars.old count
        done.new vars.new result }
{
    vars[count] = body[0];
    put(done, number);
    count + 1
}

// Lists the variables of node n behind the others, and says how many there are then. A node is marked once all its variables
// are listed. Children have lower numbers, so no node is met again before that; and a variable has one node, so one that
// isn't marked isn't listed.
fn collect(
    words: &[u32],
    starts: &[u32],
    c: Counters,
    n: u32,
    done: &mut [u64; 64],
    vars: &mut [u32; 4096],
    count: usize,
) -> usize
    requires { Collecting words.now starts.now c n done.old vars.old count }
    ensures { Collects words.now starts.now c n done.old vars.old count
        done.new vars.new result }
{
    if test(done, n) {
        return count;
    }
    let node = node_at(words, starts, c, wide(n));
    let head = Head { word: node[0] };
    if head.kind() == Head::TY_VAR {
        return add_var(&node[1..], n, done, vars, count);
    }
    let mut total = count;
    for word in child_words(node) {
        total = collect(words, starts, c, child(*word), done, vars, total);
    }
    put(done, n);
    total
}

// Lists the variables of the type of a node in an array of zeros, and says how many there are.
pub fn list_vars(
    words: &[u32],
    starts: &[u32],
    c: Counters,
    n: u32,
    vars: &mut [u32; 4096],
) -> usize
    requires in_range { InRange words.now starts.now c n }
    requires vars_value { vars.old ≡ padded 4096 [] }
    ensures { Says free_list words.now starts.now c n record { vars = vars.exit.now; count = result } }
{
    let mut done = [0u64; 64];
    collect(words, starts, c, n, &mut done, vars, 0)
}

// The variables of the type of the root, in an arena that is known to be sound.
fn list_root(
    words: &[u32],
    starts: &[u32],
    c: Counters,
    root: u32,
    vars: &mut [u32; 4096],
) -> Result<usize, Refusal>
    requires { Lent words.now starts.now c }
    ensures { ListsIn words.now starts.now c root vars.old vars.new result }
{
    if wide(root) >= c.nodes {
        return Err(Refusal::NoSuchRoot);
    }
    *vars = [0u32; 4096];
    Ok(list_vars(words, starts, c, root, vars))
}

// The variables of the type of the root, where they are lent; a refusal leaves what is there.
pub fn list_free_type_vars(
    table: &[u8],
    words: &[u32],
    starts: &[u32],
    c: Counters,
    root: u32,
    vars: &mut [u32; 4096],
) -> Result<usize, Refusal>
    ensures { Lists (ask_reply free_list table.now words.now starts.now c root)
        vars.old vars.new result }
{
    judge(table, words, starts, c)?;
    list_root(words, starts, c, root, vars)
}

// The variables of the type of the root. Whoever has a place for the list calls `list_free_type_vars`, which moves nothing.
pub fn free_type_vars(
    table: &[u8],
    words: &[u32],
    starts: &[u32],
    c: Counters,
    root: u32,
) -> Result<VarList, Refusal>
    ensures { result ≡ ask_reply free_list table.now words.now starts.now c root }
{
    let mut vars = [0u32; 4096];
    let count = list_free_type_vars(table, words, starts, c, root, &mut vars)?;
    Ok(VarList { vars, count })
}
