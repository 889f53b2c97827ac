// The kind of a member, and the kinds of the two bounds of a kind of list.
ghost use Rattle.node_store.specs.Inner.Stored.{InRange};
ghost use Rattle.node_reading.specs.Inner.{KindAt};
ghost use Rattle.member_lists.specs.Inner.Members.{NeutralOf, DecidingOf};

use node_reading::nodes::kind_at;
use types::Counters;
use types::arc_ty::{Head, wide};

// The kind of the member n.
pub(crate) fn kind_of(words: &[u32], starts: &[u32], c: Counters, n: u32) -> u32
    requires { InRange words.now starts.now c n }
    ensures { KindAt words.now starts.now c n result }
{
    kind_at(words, starts, c, wide(n))
}

// The kind of the bound that a list of this kind drops: `never` in a union, `any` in an intersection.
pub(crate) fn neutral(kind: u32) -> u32
    ensures { NeutralOf kind result }
{
    if kind == Head::UNION {
        return Head::BOTTOM;
    }
    Head::TOP
}

// The kind of the bound that decides a list of this kind: `any` a union, `never` an intersection.
pub(crate) fn deciding(kind: u32) -> u32
    ensures { DecidingOf kind result }
{
    if kind == Head::UNION {
        return Head::TOP;
    }
    Head::BOTTOM
}
