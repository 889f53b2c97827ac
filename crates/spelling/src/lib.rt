// How a name is printed: as it stands in the table, or as the Nix manual writes it, in quotes unless it is an identifier that
// isn't reserved. specs/Spelling.antt says which names stand in quotes and what they have there, specs/Reading.antt how the
// manual reads them, and specs/Theorems.antt that it reads what is written. appending::spelled writes them.
#![tactic(auto)]

ghost use Rattle.std.specs.Prelude.{◌<◌, ◌≡◌, length, drop};
ghost use Rattle.types.specs.Same.{same_numbers};
ghost use Rattle.spelling.specs.Spelling.{letter, begins, continues, identifier, reserved, plain, backslashed};

use names::compare;

// The two ways to print a name.
#[derive(Clone, Copy, Debug, PartialEq, Eq)]
pub enum Spelling {
    Bare,
    Nix,
}

// A letter of the alphabet, small or large.
fn letter(byte: u8) -> bool
    ensures { result ≡ letter byte }
{
    byte.is_ascii_alphabetic()
}

// Whether an identifier may begin with this byte.
fn begins(byte: u8) -> bool
    ensures { result ≡ begins byte }
{
    letter(byte) | (byte == b'_')
}

// Whether it may go on with this byte.
fn continues(byte: u8) -> bool
    ensures { result ≡ continues byte }
{
    begins(byte) | byte.is_ascii_digit() | (byte == b'\'') | (byte == b'-')
}

// Whether the name is an identifier, reserved or not.
fn identifier(name: &[u8]) -> bool
    ensures { result ≡ identifier name.now }
{
    let Some((first, rest)) = name.split_first() else {
        return false;
    };
    begins(*first) && rest.iter().all(|byte| continues(*byte))
}

// Whether the two are one name.
fn same(a: &[u8], b: &[u8]) -> bool
    ensures { result ≡ same_numbers a.now b.now }
{
    compare(a, b).is_eq()
}

// Whether the name is a reserved word. Only words as long as the name are compared.
fn reserved(name: &[u8]) -> bool
    ensures { result ≡ reserved name.now }
{
    match name.len() {
        2 => same(name, b"if") | same(name, b"in") | same(name, b"or"),
        3 => same(name, b"let") | same(name, b"rec"),
        4 => same(name, b"else") | same(name, b"then") | same(name, b"with"),
        6 => same(name, b"assert"),
        7 => same(name, b"inherit"),
        _ => false,
    }
}

// Whether the manual writes the name without quotes.
pub fn plain(name: &[u8]) -> bool
    ensures { result ≡ plain name.now }
{
    identifier(name) && !reserved(name)
}

// Whether a backslash stands before byte i of a name in quotes.
pub fn backslashed(name: &[u8], i: usize) -> bool
    requires { i < length name.now }
    ensures { result ≡ backslashed (drop i name.now) }
{
    if name[i] == b'$' {
        let next = i + 1;
        if next == name.len() {
            return false;
        }
        return name[next] == b'{';
    }
    (name[i] == b'"') | (name[i] == b'\\')
}
