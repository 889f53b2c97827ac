// What printing a node needs of its kind and its variable; its words are those of the crate `words`.
ghost use Rattle.std.specs.Prelude.{◌≡◌};
ghost use Rattle.types.specs.Short.{short_text};
ghost use Rattle.types.specs.Tyvar.{tyvar_name};
ghost use Rattle.types.specs.Parens.{parens_in_union_member, parens_in_intersection_member, parens_in_lambda_param, parens_in_neg};

use crate::short_text::ShortText;
pub use words::arc_ty::{Head, child, child_zero, wide};

// The variable that stands for an unknown type.
pub const UNKNOWN_TYVAR: u32 = 4294967295;

// How a type variable is printed: a letter, and a number once the letters are used up.
pub fn tyvar_name(index: u32) -> ShortText
    ensures { result ≡ short_text (tyvar_name index) }
{
    if index == UNKNOWN_TYVAR {
        return ShortText::new().push(b'?');
    }
    let letter = ShortText::new().push(b'a' + (index % 26) as u8);
    let suffix = index / 26;
    if suffix == 0 {
        letter
    } else {
        letter.push_decimal(suffix)
    }
}

// Which kinds of node are printed in parentheses: each place has those of the one before, and one more.
pub fn needs_parens_in_union_member(kind: u32) -> bool
    ensures { result ≡ parens_in_union_member kind }
{
    kind == Head::LAMBDA
}

pub fn needs_parens_in_intersection_member(kind: u32) -> bool
    ensures { result ≡ parens_in_intersection_member kind }
{
    needs_parens_in_union_member(kind) || kind == Head::UNION
}

pub fn needs_parens_in_lambda_param(kind: u32) -> bool
    ensures { result ≡ parens_in_lambda_param kind }
{
    needs_parens_in_intersection_member(kind) || kind == Head::INTERSECTION
}

pub fn needs_parens_in_neg(kind: u32) -> bool
    ensures { result ≡ parens_in_neg kind }
{
    needs_parens_in_lambda_param(kind)
}
