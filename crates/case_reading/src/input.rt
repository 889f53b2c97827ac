// A reader's bytes in large pieces, and the cases in them.
use program_io::read_full;
use std::io;
use std::io::{Read, Write};

// How many bytes the buffer has.
pub const BUFFER: usize = 1572864;

// No case is longer: two hosts that lend as many words as a case can say, with tables of 66,000 bytes, are 1,180,609 bytes.
const LONGEST: usize = 1310720;

// Which bytes of the buffer are read and not yet used, and whether the input has ended.
#[derive(Clone, Copy)]
struct Input {
    at: usize,
    end: usize,
    ended: bool,
}

// A whole case in the buffer, or all that is left of the input.
fn refill<R: Read>(reader: &mut R, buffer: &mut [u8], input: Input) -> io::Result<Input> {
    let Some(unused) = buffer.get(input.at..input.end) else {
        return Ok(input);
    };
    let kept = unused.len();
    if input.ended || kept >= LONGEST {
        return Ok(input);
    }
    buffer.copy_within(input.at..input.end, 0);
    let end = kept + read_full(reader, &mut buffer[kept..])?;
    Ok(Input {
        at: 0,
        end,
        ended: end < buffer.len(),
    })
}

// Case after case: an answer is made from what is not yet used, and says how many bytes of that it leaves, or that there is no case.
pub fn answer_all<R: Read, W: Write, F: FnMut(&[u8], &mut W) -> io::Result<Option<usize>>>(
    reader: &mut R,
    buffer: &mut [u8],
    out: &mut W,
    mut answer: F,
) -> io::Result<()>
    requires { (state : _) (unused : _) (line : _) → F.pre state unused line }
{
    let mut input = Input {
        at: 0,
        end: 0,
        ended: false,
    };
    // Nothing says that input ends, so the cases are counted.
    for _ in 0..u64::MAX {
        input = refill(reader, buffer, input)?;
        let unused = buffer.get(input.at..input.end).unwrap_or(&[]);
        let Some(left) = answer(unused, out)? else {
            break;
        };
        input.at = input.end.saturating_sub(left);
    }
    out.flush()
}
