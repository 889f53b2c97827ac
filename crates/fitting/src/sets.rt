// Whether a set fits a set type. Names rise in both, so that a place in the one only moves on while the other is walked.
ghost use Rattle.std.specs.Prelude.{◌≤◌, ◌≡◌, map, length};
ghost use Rattle.words.specs.Words.{field_name, child};
ghost use Rattle.types.specs.Node.{field_of};
ghost use Rattle.fitting.specs.Fits.{none_missing, fields_pass};
ghost use Rattle.fitting.specs.Inner.Rows.{pair, HasPair};
ghost use Rattle.fitting.specs.Inner.Sets.{other_of, Seeks, CanAsk, Asks, FieldTakes, BothRise, OtherAsks, named_at};
ghost use Rattle.fitting.specs.Inner.Sets.{test_of, words_take};

use bits::test_row;
use types::arc_ty::child;
use types::attrset::{field_name, field_optional};

// What a field that the type doesn't name must fit: the dynamic type, or nothing if the set is open.
#[derive(Clone, Copy, Debug, PartialEq, Eq)]
pub enum Other {
    Type(u32),
    Open(bool),
}

// Whether value v fits node n, by rows of so many words.
pub fn fits_pair(pairs: &[u64], width: usize, n: u32, v: u32) -> bool
    requires { HasPair pairs.now width n v }
    ensures { result ≡ pair pairs.now width n v }
{
    test_row(pairs, n * width as u32 * 64 + v)
}

// The place of the first field, from one on, whose name isn't below this one.
fn seek(fields: &[u32], from: usize, name: usize) -> usize
    requires { from ≤ length fields.now }
    ensures { Seeks fields.now from name result }
{
    for i in from..fields.len() {
        if field_name(fields[i]) >= name {
            return i;
        }
    }
    fields.len()
}

// Whether the field at this place has this name.
fn named_at(fields: &[u32], i: usize, name: usize) -> bool
    ensures { result ≡ named_at fields.now i name }
{
    if i >= fields.len() {
        return false;
    }
    field_name(fields[i]) == name
}

// Whether value v fits as a field that the type doesn't name.
fn other_takes(pairs: &[u64], width: usize, other: Other, v: u32) -> bool
    requires { OtherAsks pairs.now width other v }
    ensures { result ≡ other_of pairs.now width other v }
{
    match other {
        Other::Type(n) => fits_pair(pairs, width, n, v),
        Other::Open(open_so) => open_so,
    }
}

// Whether value v fits as the field of this name, which is the type's field i or none.
fn field_takes(
    fields: &[u32],
    i: usize,
    name: usize,
    pairs: &[u64],
    width: usize,
    other: Other,
    v: u32,
) -> bool
    requires { CanAsk fields.now pairs.now width other v }
    ensures { FieldTakes fields.now i name pairs.now width other v result }
{
    if named_at(fields, i, name) {
        return fits_pair(pairs, width, child(fields[i]), v);
    }
    other_takes(pairs, width, other, v)
}

// Whether each field of the value fits.
fn fields_take(fields: &[u32], value: &[u32], pairs: &[u64], width: usize, other: Other) -> bool
    requires { Asks fields.now value.now pairs.now width other }
    ensures { result ≡ fields_pass (test_of fields.now pairs.now width other) (map field_name value.now)
        (map child value.now) }
{
    let mut i = 0;
    for word in value {
        let name = field_name(*word);
        i = seek(fields, i, name);
        if !field_takes(fields, i, name, pairs, width, other, child(*word)) {
            return false;
        }
    }
    true
}

// Whether the value has each field that isn't optional.
fn none_missing(fields: &[u32], value: &[u32]) -> bool
    requires { BothRise fields.now value.now }
    ensures { result ≡ none_missing (map field_of fields.now) (map field_name value.now) }
{
    let mut j = 0;
    for field in fields {
        let name = field_name(*field);
        j = seek(value, j, name);
        if !(field_optional(*field) | named_at(value, j, name)) {
            return false;
        }
    }
    true
}

// Whether a set with these field words fits a set type with those.
pub fn set_takes(fields: &[u32], value: &[u32], pairs: &[u64], width: usize, other: Other) -> bool
    requires { Asks fields.now value.now pairs.now width other }
    ensures { result ≡ words_take fields.now value.now pairs.now width other }
{
    if !none_missing(fields, value) {
        return false;
    }
    fields_take(fields, value, pairs, width, other)
}
