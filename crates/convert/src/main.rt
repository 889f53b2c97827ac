// Reads one old sheet from standard input and writes the new one, or the line that it is refused. A byte past the longest sheet
// is enough to refuse it, so no more are read. A read or a write that fails ends the program with its error.
#![tactic(auto)]

use program_io::read_full;
use sheet_converting::convert_sheet;
use std::io;
use std::io::Write;

// What is written for a sheet: the new one in its place, or the line of a refusal.
fn answer(sheet: &mut [u8]) -> &[u8] {
    match convert_sheet(sheet) {
        Ok(()) => sheet,
        Err(_) => b"refused 11\n",
    }
}

fn main(rt: HostRuntime) -> io::Result<()> {
    // An array: its size is the format's, and a `Vec` could run out of memory, a way to fail that this program doesn't have.
    let mut sheet = [0u8; 65537];
    let got = read_full(&mut rt.reader(), &mut sheet)?;
    let answered = answer(&mut sheet[..got]);
    io::writer(&rt).write_all(answered)
}
