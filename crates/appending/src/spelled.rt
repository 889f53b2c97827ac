// A name in print: bare, or as the Nix manual writes it.
ghost use Rattle.std.specs.Prelude.{◌<◌, length, get_or, drop};
ghost use Rattle.spelling.specs.Spelling.{backslashed, escaped_byte, escaped, quoted, nix_name, spelled};
ghost use Rattle.appending.specs.Inner.{Writes};

use crate::{append, append_if};
use spelling::{Spelling, backslashed, plain};

// Byte i of a name in quotes.
fn write_byte(name: &[u8], i: usize, text: &mut [u8], count: usize) -> usize
    requires { i < length name.now }
    ensures { Writes text.old count
        (escaped_byte (backslashed (drop i name.now)) (get_or name.now i 0)) text.new result }
{
    let end = append_if(text, count, backslashed(name, i), b"\\");
    let next = i + 1;
    append(text, end, &name[i..next])
}

// What stands between the quotes.
fn write_escaped(name: &[u8], text: &mut [u8], count: usize) -> usize
    ensures { Writes text.old count (escaped name.now) text.new result }
{
    let mut end = count;
    for i in 0..name.len() {
        end = write_byte(name, i, text, end);
    }
    end
}

// The name in quotes.
fn write_quoted(name: &[u8], text: &mut [u8], count: usize) -> usize
    ensures { Writes text.old count (quoted name.now) text.new result }
{
    let opened = append(text, count, b"\"");
    let escaped = write_escaped(name, text, opened);
    append(text, escaped, b"\"")
}

// The name in quotes where the manual has them.
fn write_nix(name: &[u8], text: &mut [u8], count: usize) -> usize
    ensures { Writes text.old count (nix_name name.now) text.new result }
{
    if plain(name) {
        append(text, count, name)
    } else {
        write_quoted(name, text, count)
    }
}

// The name as it is spelled.
pub fn write_spelled(spelling: Spelling, name: &[u8], text: &mut [u8], count: usize) -> usize
    ensures { Writes text.old count (spelled spelling name.now) text.new result }
{
    match spelling {
        Spelling::Bare => append(text, count, name),
        Spelling::Nix => write_nix(name, text, count),
    }
}
