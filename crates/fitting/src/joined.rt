// The rows of nodes that are made of their children's rows: member lists, the bounds, names and `Neg`.
ghost use Rattle.std.specs.Prelude.{◌≡◌};
ghost use Rattle.fitting.specs.Inner.Joined.{starts_full, JoinsWords, Rows, Joins, JoinsAll, RowsOf, all_or_none};

use types::arc_ty::{Head, child, wide};

const ALL: u64 = 0xffff_ffff_ffff_ffff;

// Whether a row of this kind starts with all values: that of `any`, which has no members, of an intersection and of `Neg`.
fn starts_full(kind: u32) -> bool
    ensures { result ≡ starts_full kind }
{
    (kind == Head::TOP) | ((kind == Head::INTERSECTION) | (kind == Head::NEG))
}

// All values, or none.
fn start_row(full: bool) -> [u64; 16]
    ensures { result ≡ all_or_none full }
{
    if full {
        return [ALL; 16];
    }
    [0u64; 16]
}

// What becomes of a row's word where a child's row has the word y.
fn join_words(kind: u32, x: u64, y: u64) -> u64
    ensures { JoinsWords kind x y result }
{
    if kind == Head::INTERSECTION {
        return x & y;
    }
    if kind == Head::NEG {
        return x ^ y;
    }
    x | y
}

// Joins the row of node n, in rows of so many words, to a row.
fn join(row: &mut [u64; 16], kind: u32, pairs: &[u64], width: usize, n: usize)
    requires { Rows row.old pairs.now width n }
    ensures { Joins kind row.old pairs.now width n row.new }
{
    let from = n * width;
    for i in 0..width {
        row[i] = join_words(kind, row[i], pairs[from + i]);
    }
}

// The row of a node of this kind, from the rows of the children in its body.
pub fn joined_row(body: &[u32], kind: u32, pairs: &[u64], width: usize) -> [u64; 16]
    requires { RowsOf body.now pairs.now width }
    ensures { JoinsAll kind body.now pairs.now width result }
{
    let mut row = start_row(starts_full(kind));
    for word in body {
        join(&mut row, kind, pairs, width, wide(child(*word)));
    }
    row
}
