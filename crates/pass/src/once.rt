// One pass over the type of a root.
ghost use Rattle.node_store.specs.Inner.Stored.{InRange};
ghost use Rattle.node_filter.specs.Inner.Filter.{CoversLent, CoversAfter};
ghost use Rattle.pass.specs.Inner.Once.{SimplifiesOnce};

use crate::apply::apply_simplification;
use types::arc_ty::wide;
use types::{Counters, Refusal};
use walks::removable::one_signed;

// What the root becomes, where the variables with places of one sign in its type are removable.
pub fn simplify_once(
    words: &mut [u32],
    starts: &mut [u32],
    c: Counters,
    root: u32,
    filter: &mut [u64; 2048],
) -> Result<(u32, Counters), Refusal>
    requires in_range { InRange words.old starts.old c root }
    requires covers_lent { CoversLent words.old starts.old c filter.old }
    ensures simplifies_once { SimplifiesOnce words.old starts.old c root words.new starts.new result }
    ensures covers_after { CoversAfter words.new starts.new result filter.new }
{
    let removable = one_signed(words, starts, c, wide(root));
    let mut dropped = [0u32; 4096];
    let mut kept = [0u32; 4096];
    apply_simplification(
        words,
        starts,
        c,
        root,
        &removable,
        false,
        &mut dropped,
        &mut kept,
        filter,
    )
}
