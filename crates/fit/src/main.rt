// Reads a length, a sheet of that length and a fix from standard input, and writes whether the fix fits the sheet's type.
// specs/Fit.antt says what the line is. A byte past the longest input is enough to refuse it, so no more are read. A read or a
// write that fails ends the program with its error.
#![tactic(auto)]

ghost use Rattle.std.specs.Prelude.{◌≡◌};
ghost use Rattle.fit.specs.Fit.{sheet_answer, fit_answer, WritesFit};
ghost use Rattle.fit.specs.Inner.{SheetIn, AnswersFix, WritesAnswer};

use appending::append;
use fits::fits;
use program_io::read_full;
use sheet_format::write_refusal;
use sheet_reading::bytes::word;
use sheet_reading::nodes::copy_words;
use sheet_reading::read_sheet;
use std::io;
use std::io::Write;
use types::arc_ty::wide;
use types::{Counters, Refusal};
use words::Layout;

// Whether the fix in these bytes fits the type of a sheet, which stands in memory with its table.
fn answer_fix(
    table: &[u8],
    words: &[u32],
    starts: &[u32],
    c: Counters,
    root: u32,
    bytes: &[u8],
) -> Result<bool, Refusal>
    requires { SheetIn table.now words.now starts.now c root }
    ensures { AnswersFix table.now words.now starts.now c root bytes.now
        result }
{
    if bytes.len() > 524288 {
        return Err(Refusal::MalformedSheet);
    }
    if bytes.len() % 4 != 0 {
        return Err(Refusal::MalformedFix);
    }
    // An array: the contract has no case for memory that runs out.
    let mut fix = [0u32; 131072];
    let count = copy_words(bytes, &mut fix);
    fits(table, words, starts, c, root, &fix[..count])
}

// The same of a sheet and a fix in their bytes.
fn answer_sheet(sheet: &[u8], bytes: &[u8]) -> Result<bool, Refusal>
    ensures { result ≡ sheet_answer sheet.now bytes.now }
{
    // Arrays, for the same reason.
    let mut words = [0u32; 16384];
    let mut starts = [0u32; 4096];
    let read = read_sheet(Layout::New, sheet, &mut words, &mut starts)?;
    let end = read.end;
    answer_fix(
        &sheet[6..end],
        &words,
        &starts,
        read.counters,
        read.root,
        bytes,
    )
}

// The same of the whole input.
fn answer(input: &[u8]) -> Result<bool, Refusal>
    ensures { result ≡ fit_answer input.now }
{
    if input.len() < 4 {
        return Err(Refusal::MalformedSheet);
    }
    let length = wide(word(input, 0));
    if length > 65536 {
        return Err(Refusal::MalformedSheet);
    }
    if input.len() - 4 < length {
        return Err(Refusal::MalformedSheet);
    }
    let end = 4 + length;
    answer_sheet(&input[4..end], &input[end..])
}

fn write_answer(line: &mut [u8], answer: Result<bool, Refusal>) -> usize
    ensures { WritesAnswer line.old answer line.new result }
{
    match answer {
        Ok(true) => append(line, 0, b"yes\n"),
        Ok(false) => append(line, 0, b"no\n"),
        Err(refusal) => write_refusal(line, refusal.number()),
    }
}

// Writes the line of the input, and answers how many bytes it has.
fn fit_line(input: &[u8], line: &mut [u8; 32]) -> usize
    ensures { WritesFit input.now line.old line.new result }
{
    write_answer(line, answer(input))
}

fn main(rt: HostRuntime) -> io::Result<()> {
    let mut input = vec![in rt.alloc(); 0u8; 589829]?;
    let mut line = [0u8; 32];
    let got = read_full(&mut rt.reader(), &mut input)?;
    let count = fit_line(&input[..got], &mut line);
    io::writer(&rt).write_all(&line[..count])
}
