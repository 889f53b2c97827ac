// A buffer filled from a reader, for programs.
#![tactic(auto)]

ghost use Rattle.std.specs.Prelude.{◌≤◌, ◌<◌, length, take, IfOk};
ghost use Rattle.std.specs.Io.KnownBytes.{Consumes, IsAtEnd};

use std::io;
use std::io::Read;

// Reads until the buffer is full or the input ends, and says how many bytes it has read: they stand first in the buffer. Fewer
// than the buffer has are read only where the input ends.
pub fn read_full<R: Read>(reader: &mut R, bytes: &mut [u8]) -> io::Result<usize>
    ensures bound { IfOk result (λ n. n ≤ length bytes.new) }
    ensures front { IfOk result (λ n. Consumes (R.Read.remaining reader.old) (R.Read.remaining reader.new) (take n bytes.new)) }
    ensures end { IfOk result (λ n. n < length bytes.new → IsAtEnd (R.Read.remaining reader.new)) }
{
    let mut done = 0;
    // `read_exact` of std says no count where the input ends, and `read_to_end` allocates.
    while done < bytes.len() {
        let count = reader.read(&mut bytes[done..])?;
        if count == 0 {
            return Ok(done);
        }
        done += count;
    }
    Ok(done)
}
