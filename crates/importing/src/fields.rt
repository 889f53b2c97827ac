// The names in a node's words, by a map from the numbers of the source's table that `name_matching` makes: the number and one of
// the target's name with the same text, or 0 where the target's table lacks it.
ghost use Rattle.std.specs.Prelude.{◌<◌, ◌≡◌, map, length, get_or};
ghost use Rattle.words.specs.Words.{field_name};
ghost use Rattle.importing.specs.Import.{lacks_one};
ghost use Rattle.importing.specs.Inner.Names.{by_map, renamed_word, Known, Renaming, Renames, LacksOwn};

use node_order::field_count;
use types::arc_ty::{Head, child, wide};
use types::attrset::{field_name, field_optional, field_word};

// What the map has for the name of a field word; 0 for a name that no table has.
fn mapped(names: &[u32; 4096], word: u32) -> usize
    requires { length names.now ≡ 4096 }
    ensures { result ≡ get_or names.now (field_name word) 0 }
{
    let name = field_name(word);
    if name >= 4096 {
        return 0;
    }
    wide(names[name])
}

// A field word with the number that its name has in the target's table.
fn renamed_word(names: &[u32; 4096], word: u32) -> u32
    requires { Known names.now word }
    ensures { result ≡ renamed_word names.now word }
{
    field_word(field_optional(word), mapped(names, word) - 1, child(word))
}

// Renames the first `count` words behind the head of a node, which are its fields.
pub(crate) fn rename_fields(names: &[u32; 4096], count: usize, node: &mut [u32; 66])
    requires { Renaming names.now count node.old }
    ensures { Renames names.now count node.old node.new }
{
    for i in 0..count {
        node[i + 1] = renamed_word(names, node[i + 1]);
    }
}

// Whether the target's table lacks the name of one of these field words.
fn lacks_one(names: &[u32; 4096], fields: &[u32]) -> bool
    requires { length names.now ≡ 4096 }
    ensures { result ≡ lacks_one (by_map names.now) (map field_name fields.now) }
{
    fields.iter().any(|word| mapped(names, *word) == 0)
}

// The same of the names that a node carries, given by its words.
pub(crate) fn lacks_own(names: &[u32; 4096], node: &[u32]) -> bool
    requires names_len { length names.now ≡ 4096 }
    requires node_nonzero { 0 < length node.now }
    ensures { LacksOwn names.now node.now result }
{
    let head = Head { word: node[0] };
    let end = field_count(head, node.len() - 1) + 1;
    lacks_one(names, &node[1..end])
}
