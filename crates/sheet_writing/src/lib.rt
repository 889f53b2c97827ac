// A sheet written from lent memory into lent bytes; `write_sheet` is the call open to a host. specs/Bytes.antt says what the
// bytes of a sheet are, specs/Theorems.antt that reading takes exactly these, specs/Reply.antt what the call answers and leaves.
#![tactic(auto)]

ghost use Rattle.std.specs.Prelude.{◌≡◌, ◌%◌};
ghost use Rattle.appending.specs.Inner.{Writes};
ghost use Rattle.sheet_writing.specs.Bytes.{number_bytes, opening_bytes, words_bytes};
ghost use Rattle.sheet_writing.specs.Inner.{FitsBytes, WritesParts, Known, WritesRoot};
ghost use Rattle.sheet_writing.specs.Reply.{write_sheet_reply, left};

use appending::append;
use soundness::judge;
use types::arc_ty::wide;
use types::{Counters, Refusal};

// The most bytes that a sheet may have.
const LIMIT: usize = 65536;

// The least significant byte.
fn low_byte(n: usize) -> u8
    ensures { result ≡ n % 256 }
{
    (n % 256) as u8
}

// Writes name count, node count and root, 16 bits each, to the front.
fn write_opening(names: usize, nodes: usize, root: usize, bytes: &mut [u8]) -> usize
    ensures { Writes bytes.old 0 (opening_bytes names nodes root) bytes.new result }
{
    let opening = [
        low_byte(names / 256),
        low_byte(names),
        low_byte(nodes / 256),
        low_byte(nodes),
        low_byte(root / 256),
        low_byte(root),
    ];
    append(bytes, 0, &opening)
}

// Writes a word, 32 bits, behind the first `count` bytes.
fn write_word(word: u32, bytes: &mut [u8], count: usize) -> usize
    ensures { Writes bytes.old count (number_bytes 4 word) bytes.new result }
{
    append(bytes, count, &word.to_be_bytes())
}

// The same of words, one behind another.
pub fn write_words(words: &[u32], bytes: &mut [u8], count: usize) -> usize
    ensures { Writes bytes.old count (words_bytes words.now) bytes.new result }
{
    let mut end = count;
    for word in words {
        end = write_word(*word, bytes, end);
    }
    end
}

// Is a sheet with so many bytes of its table and so many words within the limit, and within so many lent bytes?
fn fits_bytes(table: usize, words: usize, lent: usize) -> bool
    ensures { FitsBytes table words lent result }
{
    if table > LIMIT {
        return false;
    }
    if words > LIMIT {
        return false;
    }
    let size = 6 + table + 4 * words;
    if size > LIMIT {
        return false;
    }
    size <= lent
}

// Opening, table and words, one behind another. The length is tested first, since 9 leaves the bytes as lent.
fn write_parts(
    table: &[u8],
    words: &[u32],
    names: usize,
    nodes: usize,
    root: u32,
    bytes: &mut [u8],
) -> Result<usize, Refusal>
    ensures { WritesParts table.now words.now names nodes root bytes.old
        bytes.new result }
{
    if !fits_bytes(table.len(), words.len(), bytes.len()) {
        return Err(Refusal::TextTooLong);
    }
    let mut end = write_opening(names, nodes, wide(root), bytes);
    end = append(bytes, end, table);
    Ok(write_words(words, bytes, end))
}

// The sheet of the root after 1 and 2, which say how many names the table has.
fn write_root(
    table: &[u8],
    words: &[u32],
    starts: &[u32],
    c: Counters,
    names: usize,
    root: u32,
    bytes: &mut [u8],
) -> Result<usize, Refusal>
    requires { Known table.now words.now starts.now c names }
    ensures { WritesRoot table.now words.now starts.now c root bytes.old
        bytes.new result }
{
    if wide(root) >= c.nodes {
        return Err(Refusal::NoSuchRoot);
    }
    let used = c.words;
    write_parts(table, &words[..used], names, c.nodes, root, bytes)
}

// The sheet of the table's names, the arena and the root.
pub fn write_sheet(
    table: &[u8],
    words: &[u32],
    starts: &[u32],
    c: Counters,
    root: u32,
    bytes: &mut [u8],
) -> Result<usize, Refusal>
    ensures { left result bytes.new
        ≡ write_sheet_reply table.now words.now starts.now c root bytes.old }
{
    let names = judge(table, words, starts, c)?;
    write_root(table, words, starts, c, names, root, bytes)
}
