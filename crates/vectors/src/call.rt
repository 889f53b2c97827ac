// The call that a case has.
use case_reading::case::{Case, Host, Lent, Memory};

// As many bytes as an old sheet can have.
pub const SHEET: usize = 70000;

// A call by its arguments: a host with a node or a root, or a sheet.
#[derive(Clone, Copy)]
pub enum Call<'a> {
    Intern(Host<'a>, Lent<'a>),
    Simplify(Host<'a>, u32),
    SheetLine(&'a [u8]),
    NormalizeVars(Host<'a>, u32),
    NormalizeReplacingUnknown(Host<'a>, u32),
    NormalizeSetOps(Host<'a>, u32),
    Compact(Host<'a>, u32, Memory<'a>),
    ConvertSheet(&'a [u8]),
}

// The call of the case at the front; none where the case isn't there whole, or names a call of another program.
pub fn read<'a>(case: &mut Case<'a>) -> Option<Call<'a>> {
    Some(match case.byte()? {
        2 => Call::Intern(case.host()?, case.node()?),
        4 => Call::Simplify(case.host()?, case.word()?),
        8 => Call::SheetLine(case.text()?),
        10 => Call::NormalizeVars(case.host()?, case.word()?),
        12 => Call::NormalizeReplacingUnknown(case.host()?, case.word()?),
        17 => Call::NormalizeSetOps(case.host()?, case.word()?),
        18 => Call::Compact(case.host()?, case.word()?, case.memory()?),
        24 => Call::ConvertSheet(case.text().filter(|sheet| sheet.len() <= SHEET)?),
        _ => return None,
    })
}
