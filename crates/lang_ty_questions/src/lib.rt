// The calls of the C interface that ask about a type, a part of the static library (host/archive): each hands its arguments to the
// call of that name and tells the answer as a number, 0 or that of a refusal. A result is written where it is lent; a refusal
// writes none.
#![tactic(auto)]

ghost use Rattle.std.specs.Prelude.{◌≡◌};
ghost use Rattle.words.specs.Words.{bit};
ghost use Rattle.walks.specs.Asked.{ask_reply};
ghost use Rattle.walks.specs.Reach.{reach_count};
ghost use Rattle.questions.specs.Vars.{has_type_vars, contains_bare_tyvar};
ghost use Rattle.questions.specs.Lambdas.{has_shared_tyvar_across_lambda_params};
ghost use Rattle.questions.specs.Named.{unwrap_named};
ghost use Rattle.free_vars.specs.FreeVars.{free_list};
ghost use Rattle.equal.specs.Reply.{equal_reply};
ghost use Rattle.fits.specs.Fits.{fits_reply};
ghost use Rattle.lang_ty.specs.Told.{told, tell, as_number};

use equal::structurally_eq;
use fits::fits;
use free_vars::list_free_type_vars;
use lang_ty::tell;
use questions::lambdas::has_shared_tyvar_across_lambda_params;
use questions::named::unwrap_named;
use questions::vars::{contains_bare_tyvar, has_type_vars, needs_var_normalization};
use types::{Counters, Refusal};
use walks::reach::count_reachable;

// A yes or no, told to a host.
fn tell_asked(answer: Result<bool, Refusal>, is: &mut u32) -> u32
    ensures { told result is.new ≡ tell is.old (as_number bit answer) }
{
    tell(answer.map(u32::from), is)
}

#[unsafe(no_mangle)]
pub extern "C" fn lang_ty_has_type_vars(
    table: &[u8],
    words: &[u32],
    starts: &[u32],
    nodes: usize,
    used: usize,
    root: u32,
    is: &mut u32,
) -> u32
    ensures { told result is.new
        ≡ tell is.old (as_number bit (ask_reply has_type_vars table.now words.now starts.now
        record { nodes = nodes; words = used } root)) }
{
    let c = Counters { nodes, words: used };
    tell_asked(has_type_vars(table, words, starts, c, root), is)
}

#[unsafe(no_mangle)]
pub extern "C" fn lang_ty_needs_var_normalization(
    table: &[u8],
    words: &[u32],
    starts: &[u32],
    nodes: usize,
    used: usize,
    root: u32,
    is: &mut u32,
) -> u32
    ensures { told result is.new
        ≡ tell is.old (as_number bit (ask_reply has_type_vars table.now words.now starts.now
        record { nodes = nodes; words = used } root)) }
{
    let c = Counters { nodes, words: used };
    tell_asked(needs_var_normalization(table, words, starts, c, root), is)
}

#[unsafe(no_mangle)]
pub extern "C" fn lang_ty_contains_bare_tyvar(
    table: &[u8],
    words: &[u32],
    starts: &[u32],
    nodes: usize,
    used: usize,
    root: u32,
    is: &mut u32,
) -> u32
    ensures { told result is.new
        ≡ tell is.old (as_number bit (ask_reply contains_bare_tyvar table.now words.now
        starts.now record { nodes = nodes; words = used } root)) }
{
    let c = Counters { nodes, words: used };
    tell_asked(contains_bare_tyvar(table, words, starts, c, root), is)
}

#[unsafe(no_mangle)]
pub extern "C" fn lang_ty_has_shared_tyvar_across_lambda_params(
    table: &[u8],
    words: &[u32],
    starts: &[u32],
    nodes: usize,
    used: usize,
    root: u32,
    is: &mut u32,
) -> u32
    ensures { told result is.new
        ≡ tell is.old (as_number bit (ask_reply has_shared_tyvar_across_lambda_params table.now words.now
        starts.now record { nodes = nodes; words = used } root)) }
{
    let c = Counters { nodes, words: used };
    tell_asked(
        has_shared_tyvar_across_lambda_params(table, words, starts, c, root),
        is,
    )
}

// What the root stands for.
#[unsafe(no_mangle)]
pub extern "C" fn lang_ty_unwrap_named(
    table: &[u8],
    words: &[u32],
    starts: &[u32],
    nodes: usize,
    used: usize,
    root: u32,
    number: &mut u32,
) -> u32
    ensures { told result number.new
        ≡ tell number.old (ask_reply unwrap_named table.now words.now starts.now
        record { nodes = nodes; words = used } root) }
{
    let c = Counters { nodes, words: used };
    match unwrap_named(table, words, starts, c, root) {
        Ok(n) => {
            *number = n as u32;
            0
        }
        Err(refusal) => refusal.number(),
    }
}

// How many nodes are reachable from the root.
#[unsafe(no_mangle)]
pub extern "C" fn lang_ty_count_reachable(
    table: &[u8],
    words: &[u32],
    starts: &[u32],
    nodes: usize,
    used: usize,
    root: u32,
    count: &mut u32,
) -> u32
    ensures { told result count.new
        ≡ tell count.old (ask_reply reach_count table.now words.now starts.now
        record { nodes = nodes; words = used } root) }
{
    let c = Counters { nodes, words: used };
    tell(count_reachable(table, words, starts, c, root), count)
}

// The variables of the type of the root, in the order of a first visit.
#[unsafe(no_mangle)]
pub extern "C" fn lang_ty_free_type_vars(
    table: &[u8],
    words: &[u32],
    starts: &[u32],
    nodes: usize,
    used: usize,
    root: u32,
    vars: &mut [u32; 4096],
    count: &mut usize,
) -> u32
    ensures { told result record { vars = vars.exit.now; count = count.new }
        ≡ tell record { vars = vars.entry.now; count = count.old } (ask_reply free_list table.now
        words.now starts.now record { nodes = nodes; words = used } root) }
{
    let c = Counters { nodes, words: used };
    let listed = list_free_type_vars(table, words, starts, c, root, vars);
    tell(listed, count)
}

// Whether two types, each in an arena of its own, are structurally equal.
#[unsafe(no_mangle)]
pub extern "C" fn lang_ty_structurally_eq(
    left_table: &[u8],
    left_words: &[u32],
    left_starts: &[u32],
    left_nodes: usize,
    left_used: usize,
    left_root: u32,
    right_table: &[u8],
    right_words: &[u32],
    right_starts: &[u32],
    right_nodes: usize,
    right_used: usize,
    right_root: u32,
    is: &mut u32,
) -> u32
    ensures { told result is.new
        ≡ tell is.old (as_number bit (equal_reply left_table.now left_words.now
        left_starts.now record { nodes = left_nodes; words = left_used } left_root right_table.now
        right_words.now right_starts.now record { nodes = right_nodes; words = right_used } right_root)) }
{
    let left = Counters {
        nodes: left_nodes,
        words: left_used,
    };
    let right = Counters {
        nodes: right_nodes,
        words: right_used,
    };
    let answer = structurally_eq(
        left_table,
        left_words,
        left_starts,
        left,
        left_root,
        right_table,
        right_words,
        right_starts,
        right,
        right_root,
    );
    tell_asked(answer, is)
}

// Whether a fix fits the type of the root.
#[unsafe(no_mangle)]
pub extern "C" fn lang_ty_fits(
    table: &[u8],
    words: &[u32],
    starts: &[u32],
    nodes: usize,
    used: usize,
    root: u32,
    fix: &[u32],
    answer: &mut u32,
) -> u32
    ensures { told result answer.new
        ≡ tell answer.old (as_number bit (fits_reply table.now words.now starts.now
        record { nodes = nodes; words = used } root fix.now)) }
{
    let c = Counters { nodes, words: used };
    tell_asked(fits(table, words, starts, c, root, fix), answer)
}
