// Answers cases of the calls that only read, from standard input, one line each, until the input ends: what the library says, to
// be held against what the Rust says of the same cases. A case is a byte that names the call, and its arguments.
#![tactic(auto)]

mod answers;
mod call;
mod texts;

use answers::{Rooms, answer};
use call::read;
use case_reading::case::Case;
use case_reading::input::{BUFFER, answer_all};
use std::io;
use std::io::{BufWriter, Write};

fn main(rt: HostRuntime) -> io::Result<()> {
    let mut buffer = vec![in rt.alloc(); 0u8; BUFFER]?;
    let mut rooms = Rooms::new(rt.alloc())?;
    let mut out = BufWriter::new(rt.alloc(), io::writer(&rt))?;
    answer_all(&mut rt.reader(), &mut buffer, &mut out, |unused, out| {
        let mut case = Case::new(unused);
        let Some(call) = read(&mut case) else {
            return Ok(None);
        };
        answer(call, &mut rooms, out)?;
        writeln!(out)?;
        Ok(Some(case.left()))
    })
}
