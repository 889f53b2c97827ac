// Whether a fix fits a type: the call open to a host. Memory is only read.
#![tactic(auto)]

ghost use Rattle.std.specs.Prelude.{◌≡◌};
ghost use Rattle.node_store.specs.Inner.Stored.{Lent};
ghost use Rattle.fits.specs.Fits.{fits_reply};
ghost use Rattle.fits.specs.Inner.{FitsIn};

use fitting::pairs::decide;
use fix_values::check_fix;
use questions::vars::has_var;
use soundness::judge;
use types::arc_ty::wide;
use types::{Counters, Refusal};

// The same in an arena that is known to be sound under a table of so many names.
pub fn fits_in(
    words: &[u32],
    starts: &[u32],
    c: Counters,
    names: usize,
    root: usize,
    fix: &[u32],
) -> Result<bool, Refusal>
    requires { Lent words.now starts.now c }
    ensures { FitsIn names words.now starts.now c root fix.now result }
{
    if root >= c.nodes {
        return Err(Refusal::NoSuchRoot);
    }
    let mut places = [0usize; 1024];
    let count = check_fix(fix, names, &mut places);
    if count == 0 {
        return Err(Refusal::MalformedFix);
    }
    if has_var(words, starts, c, root, false) {
        return Err(Refusal::HasVariable);
    }
    Ok(decide(words, starts, c, root, fix, &places, count))
}

// Whether the fix, the last of its values, fits the type of the root.
pub fn fits(
    table: &[u8],
    words: &[u32],
    starts: &[u32],
    c: Counters,
    root: u32,
    fix: &[u32],
) -> Result<bool, Refusal>
    ensures { result ≡ fits_reply table.now words.now starts.now c root fix.now }
{
    let names = judge(table, words, starts, c)?;
    fits_in(words, starts, c, names, wide(root), fix)
}
