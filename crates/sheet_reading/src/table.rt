// The name table of a sheet.
ghost use Rattle.sheet_reading.specs.Inner.Steps.{Here, ReadsName, ReadsNames};

use names::follows;
use types::Refusal;

// Where the name ends whose length byte stands at `at`, if it may follow the previous one.
fn read_name(bytes: &[u8], previous: &[u8], at: usize) -> Result<usize, Refusal>
    requires { Here bytes.now at }
    ensures { ReadsName bytes.now previous.now at result }
{
    if at >= bytes.len() {
        return Err(Refusal::MalformedSheet);
    }
    let length = bytes[at];
    if length < 1 {
        return Err(Refusal::BadTable);
    }
    if length > 64 {
        return Err(Refusal::BadTable);
    }
    let start = at + 1;
    let size = usize::from(length);
    if bytes.len() - start < size {
        return Err(Refusal::MalformedSheet);
    }
    let end = start + size;
    if follows(previous, length, &bytes[start..end]) {
        Ok(end)
    } else {
        Err(Refusal::BadTable)
    }
}

// Where the table of so many names ends that begins at `first`. The last name read is `bytes[from..at]`.
pub(crate) fn read_names(bytes: &[u8], first: usize, count: usize) -> Result<usize, Refusal>
    requires { Here bytes.now first }
    ensures { ReadsNames bytes.now first count result }
{
    let mut from = first;
    let mut at = first;
    for _ in 0..count {
        let end = read_name(bytes, &bytes[from..at], at)?;
        from = at + 1;
        at = end;
    }
    Ok(at)
}
