// The call that a case has.
use case_reading::case::{Case, Host};
use types::arc_ty::wide;

// As many bytes as a text can be lent.
pub const TEXT: usize = 70000;

// A host, and the root of a type in its memory.
#[derive(Clone, Copy)]
pub struct Type<'a> {
    pub host: Host<'a>,
    pub root: u32,
}

// A call by its arguments. Where it writes a text or a sheet, the number is how many bytes are lent to that.
#[derive(Clone, Copy)]
pub enum Call<'a> {
    TyvarName(u32),
    CompareNodes(Type<'a>, u32),
    Display(Type<'a>, usize),
    CheckNames(&'a [u8]),
    CompareNames(&'a [u8], &'a [u8]),
    FreeTypeVars(Type<'a>),
    NeedsVarNormalization(Type<'a>),
    HasTypeVars(Type<'a>),
    ContainsBareTyvar(Type<'a>),
    HasSharedTyvarAcrossLambdaParams(Type<'a>),
    UnwrapNamed(Type<'a>),
    StructurallyEq(Type<'a>, Type<'a>),
    CountReachable(Type<'a>),
    WriteSheet(Type<'a>, usize),
    NameStretch(&'a [u8], u32),
    DisplayNix(Type<'a>, usize),
    FindName(&'a [u8], &'a [u8]),
}

fn read_type<'a>(case: &mut Case<'a>) -> Option<Type<'a>> {
    Some(Type {
        host: case.host()?,
        root: case.word()?,
    })
}

// A name: its length in one byte, and its bytes.
fn name<'a>(case: &mut Case<'a>) -> Option<&'a [u8]> {
    let length = case.byte()?;
    case.part(usize::from(length))
}

// How many bytes are lent to a text.
fn lent(case: &mut Case<'_>) -> Option<usize> {
    let length = wide(case.word()?);
    (length <= TEXT).then_some(length)
}

// The call of the case at the front; none where the case isn't there whole, or names a call of another program.
pub fn read<'a>(case: &mut Case<'a>) -> Option<Call<'a>> {
    Some(match case.byte()? {
        1 => Call::TyvarName(case.word()?),
        3 => Call::CompareNodes(read_type(case)?, case.word()?),
        5 => Call::Display(read_type(case)?, lent(case)?),
        6 => Call::CheckNames(case.text()?),
        7 => Call::CompareNames(name(case)?, name(case)?),
        9 => Call::FreeTypeVars(read_type(case)?),
        11 => Call::NeedsVarNormalization(read_type(case)?),
        13 => Call::HasTypeVars(read_type(case)?),
        14 => Call::ContainsBareTyvar(read_type(case)?),
        15 => Call::HasSharedTyvarAcrossLambdaParams(read_type(case)?),
        16 => Call::UnwrapNamed(read_type(case)?),
        19 => Call::StructurallyEq(read_type(case)?, read_type(case)?),
        20 => Call::CountReachable(read_type(case)?),
        21 => Call::WriteSheet(read_type(case)?, lent(case)?),
        22 => Call::NameStretch(case.text()?, case.word()?),
        23 => Call::DisplayNix(read_type(case)?, lent(case)?),
        25 => Call::FindName(case.text()?, case.text()?),
        _ => return None,
    })
}
