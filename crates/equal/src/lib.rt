// Structural equality of two types in two arenas, names by text: `node_data` compares what two nodes carry besides their children,
// `pairs` pairs the nodes that must be equal.
#![tactic(auto)]

mod node_data;
mod pairs;

ghost use Rattle.std.specs.Prelude.{◌≡◌};
ghost use Rattle.soundness.specs.Inner.Sides.{Side};
ghost use Rattle.equal.specs.Inner.Pairs.{Sides, Answers, RightAnswers};
ghost use Rattle.equal.specs.Reply.{equal_reply};

use pairs::agree;
use soundness::judge;
use types::arc_ty::wide;
use types::{Counters, Refusal};

// Whether the roots are equal, in arenas that are known to be sound.
fn equal_in(
    left_table: &[u8],
    left_words: &[u32],
    left_starts: &[u32],
    left: Counters,
    left_root: usize,
    right_table: &[u8],
    right_words: &[u32],
    right_starts: &[u32],
    right: Counters,
    right_root: usize,
) -> Result<bool, Refusal>
    requires { Sides left_table.now left_words.now left_starts.now left right_table.now right_words.now
        right_starts.now right }
    ensures { Answers left_table.now left_words.now left_starts.now left left_root
        right_table.now right_words.now right_starts.now right right_root result }
{
    if left_root >= left.nodes {
        return Err(Refusal::NoSuchRoot);
    }
    if right_root >= right.nodes {
        return Err(Refusal::NoSuchRoot);
    }
    let equal = agree(
        left_table,
        left_words,
        left_starts,
        left,
        left_root,
        right_table,
        right_words,
        right_starts,
        right,
        right_root,
    );
    Ok(equal)
}

// The same, in a right arena that isn't known to be sound.
fn equal_right(
    left_table: &[u8],
    left_words: &[u32],
    left_starts: &[u32],
    left: Counters,
    left_root: u32,
    right_table: &[u8],
    right_words: &[u32],
    right_starts: &[u32],
    right: Counters,
    right_root: u32,
) -> Result<bool, Refusal>
    requires { Side left_table.now left_words.now left_starts.now left }
    ensures { RightAnswers left_table.now left_words.now left_starts.now left left_root
        right_table.now right_words.now right_starts.now right right_root result }
{
    judge(right_table, right_words, right_starts, right)?;
    equal_in(
        left_table,
        left_words,
        left_starts,
        left,
        wide(left_root),
        right_table,
        right_words,
        right_starts,
        right,
        wide(right_root),
    )
}

// Whether the type of the left root, in the left arena, is structurally equal to that of the right root in the right arena.
pub fn structurally_eq(
    left_table: &[u8],
    left_words: &[u32],
    left_starts: &[u32],
    left: Counters,
    left_root: u32,
    right_table: &[u8],
    right_words: &[u32],
    right_starts: &[u32],
    right: Counters,
    right_root: u32,
) -> Result<bool, Refusal>
    ensures { result
        ≡ equal_reply left_table.now left_words.now left_starts.now left left_root
        right_table.now right_words.now right_starts.now right right_root }
{
    judge(left_table, left_words, left_starts, left)?;
    equal_right(
        left_table,
        left_words,
        left_starts,
        left,
        left_root,
        right_table,
        right_words,
        right_starts,
        right,
        right_root,
    )
}
