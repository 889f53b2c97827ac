// Reads a sheet from standard input and writes its line. A byte past the longest sheet is enough to refuse it, so no more are
// read. A read or a write that fails ends the program with its error.
#![tactic(auto)]

use program_io::read_full;
use sheet_format::sheet_line;
use std::io;
use std::io::Write;

fn main(rt: HostRuntime) -> io::Result<()> {
    // Arrays: `sheet_line` takes the line as one, and a `Vec` could run out of memory, a way to fail that this program doesn't have.
    let mut input = [0u8; 65537];
    let mut line = [0u8; 65544];
    let got = read_full(&mut rt.reader(), &mut input)?;
    let count = sheet_line(&input[..got], &mut line);
    io::writer(&rt).write_all(&line[..count])
}
