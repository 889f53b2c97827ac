// The line of a sheet: the sheet is read, the type of its root simplified and printed, with names as the Nix manual writes
// them. specs/Line.antt says what the line is.
#![tactic(auto)]

ghost use Rattle.std.specs.Prelude.{◌++◌};
ghost use Rattle.types.specs.Bytes.{bytes};
ghost use Rattle.types.specs.Decimal.{decimal};
ghost use Rattle.appending.specs.Inner.{Writes};
ghost use Rattle.sheet_format.specs.Line.{type_line, refused_line};
ghost use Rattle.sheet_format.specs.Inner.{SheetIn, AnswersType, Empty, AnswersSheet};
ghost use Rattle.sheet_format.specs.Line.{WritesLine};

use appending::append;
use display::display_in;
use sheet_reading::read_sheet;
use simplify::simplify_in;
use spelling::Spelling;
use text_writing::pieces::write_short;
use types::short_text::ShortText;
use types::{Counters, Refusal};
use words::Layout;

// The root after, the passes made and the length of the text.
#[derive(Clone, Copy, Debug, PartialEq, Eq)]
struct Answer {
    root: u32,
    passes: u32,
    length: usize,
}

// Writes a number in base ten behind the first `count` bytes.
fn append_decimal(line: &mut [u8], count: usize, n: u32) -> usize
    ensures { Writes line.old count (decimal n) line.new result }
{
    write_short(line, count, ShortText::new().push_decimal(n))
}

// Writes the line of a refusal.
pub fn write_refusal(line: &mut [u8], number: u32) -> usize
    ensures { Writes line.old 0 (refused_line number) line.new result }
{
    let count = append(line, 0, b"refused ");
    let count = append_decimal(line, count, number);
    append(line, count, b"\n")
}

// Writes a number and a space.
fn append_number(line: &mut [u8], count: usize, n: u32) -> usize
    ensures { Writes line.old count (decimal n ++ bytes " ") line.new result }
{
    let count = append_decimal(line, count, n);
    append(line, count, b" ")
}

fn write_type(line: &mut [u8], root: u32, passes: u32, text: &[u8]) -> usize
    ensures { Writes line.old 0 (type_line root passes text.now) line.new result }
{
    let count = append_number(line, 0, root);
    let count = append_number(line, count, passes);
    let end = append(line, count, text);
    append(line, end, b"\n")
}

// Simplifies and prints the type of the sheet in memory, which isn't checked again.
fn answer_type(
    table: &[u8],
    words: &mut [u32],
    starts: &mut [u32],
    c: Counters,
    root: u32,
    text: &mut [u8],
) -> Result<Answer, Refusal>
    requires { SheetIn table.now words.old starts.old c root text.old }
    ensures { AnswersType table.now words.old starts.old c root text.new result }
{
    let simplified = simplify_in(words, starts, c, root);
    let Ok(ty) = simplified else {
        return Err(simplified.unwrap_err());
    };
    let length = display_in(
        table,
        Spelling::Nix,
        words,
        starts,
        ty.counters,
        ty.root,
        text,
    )?;
    Ok(Answer {
        root: ty.root,
        passes: ty.passes,
        length,
    })
}

// What the sheet with these bytes becomes.
fn answer_sheet(
    input: &[u8],
    words: &mut [u32],
    starts: &mut [u32],
    text: &mut [u8],
) -> Result<Answer, Refusal>
    requires { Empty words.old starts.old text.old }
    ensures { AnswersSheet input.now text.new result }
{
    let sheet = read_sheet(Layout::New, input, words, starts)?;
    let end = sheet.end;
    answer_type(
        &input[6..end],
        words,
        starts,
        sheet.counters,
        sheet.root,
        text,
    )
}

// Writes the line of the sheet, and answers how many bytes it has.
pub fn sheet_line(input: &[u8], line: &mut [u8; 65544]) -> usize
    ensures { WritesLine input.now line.old line.new result }
{
    let mut words = [0u32; 16384];
    let mut starts = [0u32; 4096];
    let mut text = [0u8; 65536];
    match answer_sheet(input, &mut words, &mut starts, &mut text) {
        Ok(answer) => {
            let length = answer.length;
            write_type(line, answer.root, answer.passes, &text[..length])
        }
        Err(refusal) => write_refusal(line, refusal.number()),
    }
}
