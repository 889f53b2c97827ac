// Texts put one behind another into lent bytes, and names as they are spelled. `append` is the one function that writes: it is
// given how many bytes are written and says how many there are then. A count over the number of lent bytes says that the text
// didn't fit; nothing is written from then on.
#![tactic(auto)]

pub mod spelled;

ghost use Rattle.appending.specs.Parts.{when, between};
ghost use Rattle.appending.specs.Inner.{Writes};

// Writes the bytes behind the first `count`.
pub fn append(text: &mut [u8], count: usize, bytes: &[u8]) -> usize
    ensures { Writes text.old count bytes.now text.new result }
{
    if count > text.len() {
        return count;
    }
    if bytes.len() > text.len() - count {
        return text.len() + 1;
    }
    // Byte by byte: std's `copy_from_slice` calls `memmove`, and a host brings `memcpy` and `memset` alone.
    for i in 0..bytes.len() {
        let k = count + i;
        text[k] = bytes[i];
    }
    count + bytes.len()
}

// The same under a condition.
pub fn append_if(text: &mut [u8], count: usize, so: bool, bytes: &[u8]) -> usize
    ensures { Writes text.old count (when so bytes.now) text.new result }
{
    if so {
        append(text, count, bytes)
    } else {
        count
    }
}

// The same before child i: nothing before the first.
pub fn append_after(text: &mut [u8], count: usize, i: usize, bytes: &[u8]) -> usize
    ensures { Writes text.old count (between bytes.now i) text.new result }
{
    if i == 0 {
        count
    } else {
        append(text, count, bytes)
    }
}
