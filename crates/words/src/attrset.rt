// The words of a set's fields; a field's child is read by `arc_ty::child`.
ghost use Rattle.std.specs.Prelude.{◌≡◌};
ghost use Rattle.words.specs.Words.{FieldFits, field_word, field_optional, field_name, field_zero};
ghost use Rattle.words.specs.Inner.{renewed};

use crate::arc_ty::{CHILDREN, flag, wide};

// One in the lowest bit of a field word's field.
const OPTIONAL: u32 = 0x8000_0000;

const NAME: u32 = 0x0000_8000;

// The same of a name in an old field word.
const OLD_NAME: u32 = 0x0080_0000;

pub fn field_word(optional: bool, name: usize, child: u32) -> u32
    requires { FieldFits name child }
    ensures { result ≡ field_word optional name child }
{
    flag(optional) * OPTIONAL + name as u32 * NAME + child
}

// Whether the field may be left out.
pub fn field_optional(word: u32) -> bool
    ensures { result ≡ field_optional word }
{
    word / OPTIONAL % 2 == 1
}

// The number of the field's name.
pub fn field_name(word: u32) -> usize
    ensures { result ≡ field_name word }
{
    wide(word / NAME % 0x1_0000)
}

// The bits that a sound field word has zero.
pub fn field_zero(word: u32) -> u32
    ensures { result ≡ field_zero word }
{
    word / CHILDREN % 8
}

// An old field word in the new layout: the same mark, name and child. Where the old one has a bit set that is to be zero, so has
// the new one.
pub fn renewed(word: u32) -> u32
    ensures { result ≡ renewed word }
{
    let name = wide(word / OLD_NAME % 0x100);
    let zero = word / CHILDREN % 0x800;
    field_word(field_optional(word), name, word % CHILDREN) + flag(zero != 0) * CHILDREN
}
