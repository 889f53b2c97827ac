// What two nodes of two arenas carry besides their children, compared word by word. Names are compared by a map that
// `name_matching` makes: at the number of a name of the left stands the number, and one, of the right's name with the same text.
ghost use Rattle.std.specs.Prelude.{◌<◌, ◌≡◌, length, get_or};
ghost use Rattle.equal.specs.Inner.Data.{same_field, same_fields, SameData};

use node_order::field_count;
use types::arc_ty::{Head, wide};
use types::attrset::{field_name, field_optional};

// Whether two fields are both optional or both not, and have the same name.
fn same_field(names: &[u32; 4096], v: u32, w: u32) -> bool
    requires { length names.now ≡ 4096 }
    ensures { result ≡ same_field names.now v w }
{
    if field_optional(v) != field_optional(w) {
        return false;
    }
    let name = field_name(v);
    if name >= 4096 {
        return false;
    }
    wide(names[name]) == field_name(w) + 1
}

// The same of as many field words.
fn same_fields(names: &[u32; 4096], e: &[u32], f: &[u32]) -> bool
    requires names_len { length names.now ≡ 4096 }
    requires e_len { length e.now ≡ length f.now }
    ensures { result ≡ same_fields names.now e.now f.now }
{
    // By an index: with two iterators in step the whole call took 3 % more at 4,084 nodes.
    for i in 0..e.len() {
        if !same_field(names, e[i], f[i]) {
            return false;
        }
    }
    true
}

// The word after the head, 0 where there is none.
fn own_word(node: &[u32]) -> u32
    ensures { result ≡ get_or node.now 1 0 }
{
    if node.len() < 2 {
        return 0;
    }
    node[1]
}

// Whether two nodes, each given by its words, have the same data and as many children. Heads of equal words have the same
// kind, flags and count; below kind 4 a node's only other word is its own number.
pub(crate) fn same_data(names: &[u32; 4096], a: &[u32], b: &[u32]) -> bool
    requires names_len { length names.now ≡ 4096 }
    requires a_nonzero { 0 < length a.now }
    ensures { SameData names.now a.now b.now result }
{
    if a.len() != b.len() {
        return false;
    }
    if a[0] != b[0] {
        return false;
    }
    let head = Head { word: a[0] };
    if head.kind() < Head::LIST {
        return own_word(a) == own_word(b);
    }
    let end = field_count(head, a.len() - 1) + 1;
    same_fields(names, &a[1..end], &b[1..end])
}
