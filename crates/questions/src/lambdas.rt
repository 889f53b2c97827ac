// Whether two lambdas of a type take the same variable. A sound arena has one node for a variable, so a set of nodes says which
// variables were taken.
ghost use Rattle.std.specs.Prelude.{◌≡◌, true};
ghost use Rattle.bits.specs.Bits.{has};
ghost use Rattle.node_store.specs.Inner.Stored.{Lent, InRange};
ghost use Rattle.types.specs.Out.{option_of};
ghost use Rattle.walks.specs.Asked.{ask_reply};
ghost use Rattle.walks.specs.Inner.Asked.{Answers};
ghost use Rattle.questions.specs.Lambdas.{has_shared_tyvar_across_lambda_params};
ghost use Rattle.questions.specs.Inner.Lambdas.{ParamAt, ParamRow, Seeing, Shares};

use bits::{put, test};
use node_reading::nodes::{first_child, kind_at};
use soundness::judge;
use types::arc_ty::{Head, wide};
use types::{Counters, Refusal};
use walks::reach::reachable;

// What node n takes, if it is a lambda and that is a variable.
fn param_at(words: &[u32], starts: &[u32], c: Counters, n: usize) -> Option<usize>
    requires { InRange words.now starts.now c n }
    ensures { ParamAt words.now starts.now c true n result }
{
    if kind_at(words, starts, c, n) != Head::LAMBDA {
        return None;
    }
    let param = first_child(words, starts, c, n);
    if kind_at(words, starts, c, param) != Head::TY_VAR {
        return None;
    }
    Some(param)
}

// The same for a node that is in the set.
fn met_param(words: &[u32], starts: &[u32], c: Counters, met: &[u64; 64], n: usize) -> Option<usize>
    requires { InRange words.now starts.now c n }
    ensures { ParamAt words.now starts.now c (has met.now n) n result }
{
    if test(met, n as u32) {
        return param_at(words, starts, c, n);
    }
    None
}

// Whether the node of a variable is in the set, where it is put.
fn seen_before(seen: &mut [u64; 64], param: Option<usize>) -> bool
    requires { ParamRow seen.old (option_of param) }
    ensures { Seeing seen.old (option_of param) seen.new result }
{
    let Some(p) = param else {
        return false;
    };
    if test(seen, p as u32) {
        return true;
    }
    put(seen, p as u32);
    false
}

// Whether two nodes in the set take the same variable.
fn shares(words: &[u32], starts: &[u32], c: Counters, met: &[u64; 64]) -> bool
    requires { Lent words.now starts.now c }
    ensures { Shares words.now starts.now c met.now result }
{
    let mut seen = [0u64; 64];
    for n in 0..c.nodes {
        let param = met_param(words, starts, c, met, n);
        if seen_before(&mut seen, param) {
            return true;
        }
    }
    false
}

// The same of the nodes with a place in the type of the root, in an arena that is known to be sound.
fn shares_in(words: &[u32], starts: &[u32], c: Counters, root: usize) -> Result<bool, Refusal>
    requires { Lent words.now starts.now c }
    ensures { Answers has_shared_tyvar_across_lambda_params words.now starts.now c root result }
{
    if root >= c.nodes {
        return Err(Refusal::NoSuchRoot);
    }
    let met = reachable(words, starts, c, root);
    Ok(shares(words, starts, c, &met))
}

// Whether two different lambdas in the type of the root take the same variable.
pub fn has_shared_tyvar_across_lambda_params(
    table: &[u8],
    words: &[u32],
    starts: &[u32],
    c: Counters,
    root: u32,
) -> Result<bool, Refusal>
    ensures { result
        ≡ ask_reply has_shared_tyvar_across_lambda_params table.now words.now starts.now c root }
{
    judge(table, words, starts, c)?;
    shares_in(words, starts, c, wide(root))
}
