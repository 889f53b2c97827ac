// Whether a type has variables. Children have lower numbers, so one loop from node 0 up to the root knows of each node's children
// before it comes to the node.
ghost use Rattle.std.specs.Prelude.{◌≡◌, map, drop};
ghost use Rattle.words.specs.Words.{child};
ghost use Rattle.bits.specs.Bits.{has};
ghost use Rattle.bits.specs.Inner.{Row};
ghost use Rattle.node_store.specs.Inner.Stored.{Lent, InRange};
ghost use Rattle.walks.specs.Asked.{ask_reply};
ghost use Rattle.walks.specs.Inner.Asked.{Says, Answers};
ghost use Rattle.walks.specs.Reach.{some_of};
ghost use Rattle.questions.specs.Vars.{has_var, has_type_vars, contains_bare_tyvar};
ghost use Rattle.questions.specs.Inner.Vars.{words_have, Learned};

use bits::{put, test};
use node_reading::nodes::kind_in;
use node_store::children::child_words;
use node_store::stored::node_at;
use soundness::judge;
use types::arc_ty::{Head, child, wide};
use types::{Counters, Refusal};

// Whether one of the children in the body of a node, from one on, is in the set.
fn some_child(body: &[u32], from: usize, met: &[u64; 64]) -> bool
    ensures { result ≡ some_of (drop from (map (has met.now) (map child body.now))) }
{
    for i in from..body.len() {
        if test(met, child(body[i])) {
            return true;
        }
    }
    false
}

// Whether the words are those of a variable, or have a child in the set. A lambda's param is passed over if `skip` says so.
fn words_have(node: &[u32], skip: bool, met: &[u64; 64]) -> bool
    ensures { result ≡ words_have skip (has met.now) node.now }
{
    let kind = kind_in(node);
    if kind == Head::TY_VAR {
        return true;
    }
    let body = child_words(node);
    if skip & (kind == Head::LAMBDA) {
        return some_child(body, 1, met);
    }
    some_child(body, 0, met)
}

// Puts the node n with these words into the set, if it has a variable.
fn learn(node: &[u32], skip: bool, n: usize, met: &mut [u64; 64])
    requires { Row met.old n }
    ensures { Learned (words_have skip (has met.old) node.now) n met.old met.new }
{
    if words_have(node, skip, met) {
        put(met, n as u32);
    }
}

// Whether the type of the root has a variable, lambdas' params passed over or not. The set has the nodes whose types have one.
pub fn has_var(words: &[u32], starts: &[u32], c: Counters, root: usize, skip: bool) -> bool
    requires { InRange words.now starts.now c root }
    ensures { Says (has_var skip) words.now starts.now c root result }
{
    let mut met = [0u64; 64];
    for n in 0..root {
        learn(node_at(words, starts, c, n), skip, n, &mut met);
    }
    words_have(node_at(words, starts, c, root), skip, &met)
}

// The same in an arena that is known to be sound, for any root.
fn has_var_in(
    words: &[u32],
    starts: &[u32],
    c: Counters,
    root: usize,
    skip: bool,
) -> Result<bool, Refusal>
    requires { Lent words.now starts.now c }
    ensures { Answers (has_var skip) words.now starts.now c root result }
{
    if root >= c.nodes {
        return Err(Refusal::NoSuchRoot);
    }
    Ok(has_var(words, starts, c, root, skip))
}

// The same in any memory.
fn ask_var(
    table: &[u8],
    words: &[u32],
    starts: &[u32],
    c: Counters,
    root: u32,
    skip: bool,
) -> Result<bool, Refusal>
    ensures { result ≡ ask_reply (has_var skip) table.now words.now starts.now c root }
{
    judge(table, words, starts, c)?;
    has_var_in(words, starts, c, wide(root), skip)
}

// Whether the type of the root has a variable.
pub fn has_type_vars(
    table: &[u8],
    words: &[u32],
    starts: &[u32],
    c: Counters,
    root: u32,
) -> Result<bool, Refusal>
    ensures { result ≡ ask_reply has_type_vars table.now words.now starts.now c root }
{
    ask_var(table, words, starts, c, root, false)
}

// Whether it has one outside lambdas' params.
pub fn contains_bare_tyvar(
    table: &[u8],
    words: &[u32],
    starts: &[u32],
    c: Counters,
    root: u32,
) -> Result<bool, Refusal>
    ensures { result ≡ ask_reply contains_bare_tyvar table.now words.now starts.now c root }
{
    ask_var(table, words, starts, c, root, true)
}

// Whether `normalize_replacing_unknown` has something to do: wherever the type has a variable at all, as the Rust has it.
pub fn needs_var_normalization(
    table: &[u8],
    words: &[u32],
    starts: &[u32],
    c: Counters,
    root: u32,
) -> Result<bool, Refusal>
    ensures { result ≡ ask_reply has_type_vars table.now words.now starts.now c root }
{
    has_type_vars(table, words, starts, c, root)
}
