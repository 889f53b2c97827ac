// One variable: its number, its place in a list, and its node.
ghost use Rattle.std.specs.Prelude.{◌≡◌, ◌≤◌, length};
ghost use Rattle.node_filter.specs.Inner.Filter.{CoversLent, CoversAfter};
ghost use Rattle.renumbering.specs.Renumbered.{index};
ghost use Rattle.renumbering.specs.Inner.{VarAt, VarIs, VarWords, RenumbersVar};

use node_filter::intern_near;
use node_store::stored::node_at;
use types::arc_ty::{Head, wide};
use types::{Counters, Refusal};

// The place of a variable in a list; the length of the list, if it has none.
fn index_of(vars: &[u32], v: u32) -> usize
    ensures { result ≡ index vars.now v }
{
    vars.iter().position(|var| *var == v).unwrap_or(vars.len())
}

// The number of the variable at node n.
fn var_at(words: &[u32], starts: &[u32], c: Counters, n: usize) -> u32
    requires { VarAt words.now starts.now c n }
    ensures { VarIs words.now starts.now c n result }
{
    node_at(words, starts, c, n)[1]
}

// The words of the node of variable v.
pub fn var_words(v: u32) -> [u32; 2]
    ensures { VarWords v result }
{
    let head = Head::new(Head::TY_VAR, false, false, 1);
    [head.word, v]
}

// What the variable at node n becomes: that of its place in the list, often itself.
pub fn renumber_var(
    words: &mut [u32],
    starts: &mut [u32],
    c: Counters,
    n: u32,
    vars: &[u32],
    filter: &mut [u64; 2048],
) -> Result<(u32, Counters), Refusal>
    requires var_at { VarAt words.old starts.old c n }
    requires vars_len_bound { length vars.now ≤ 4096 }
    requires covers_lent { CoversLent words.old starts.old c filter.old }
    ensures renumbers_var { RenumbersVar vars.now words.old starts.old c n words.new
        starts.new result }
    ensures covers_after { CoversAfter words.new starts.new result filter.new }
{
    let v = var_at(words, starts, c, wide(n));
    let place = index_of(vars, v);
    let node = var_words(place as u32);
    intern_near(words, starts, c, &node, n, filter)
}
