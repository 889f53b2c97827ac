// The numbers of a sheet, most significant byte first.
ghost use Rattle.sheet_reading.specs.Inner.Steps.{Inside, ShortAt, WordAt};

pub(crate) fn short(bytes: &[u8], at: usize) -> u32
    requires { Inside bytes.now at 2 }
    ensures { ShortAt bytes.now at result }
{
    u32::from(u16::from_be_bytes([bytes[at], bytes[at + 1]]))
}

pub fn word(bytes: &[u8], at: usize) -> u32
    requires { Inside bytes.now at 4 }
    ensures { WordAt bytes.now at result }
{
    u32::from_be_bytes([bytes[at], bytes[at + 1], bytes[at + 2], bytes[at + 3]])
}
