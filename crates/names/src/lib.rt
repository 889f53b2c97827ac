// The name table that is lent with an arena. `compare` orders two names, `check_names` judges a table, and `name_stretch` and,
// by places that `find_places` finds once a call, `name_at` give back the text of a name. specs/Table.antt says what a table is,
// specs/Reply.antt what its check and `name_stretch` answer, and specs/Theorems.antt that the answer is the name's text;
// proofs/Tables.antt, proofs/Numbers.antt, proofs/Places.antt and proofs/Replies.antt have what a caller may know of a table, of
// the numbers and the places of its names and of the check's answer.
#![tactic(auto)]

ghost use Rattle.std.specs.Prelude.{◌≤◌, ◌≡◌, length};
ghost use Rattle.names.specs.Table.{name_order, name_text, may_follow};
ghost use Rattle.names.specs.Reply.{table_reply, name_reply};
ghost use Rattle.names.specs.Inner.{odd, odd_bytes, comes_next, name_end, Lies, Unplaced, Places};

use types::arc_ty::wide;
use types::{Ordering, Refusal};

// How two names stand, which may be of different tables.
pub fn compare(a: &[u8], b: &[u8]) -> Ordering
    ensures { result ≡ name_order a.now b.now }
{
    a.cmp(b)
}

// 1 for a byte that can't stand in a name, else 0.
fn odd(byte: u8) -> u32
    ensures { result ≡ odd byte }
{
    ((byte < 32) | (byte > 126)) as u32
}

// How many of the bytes can't stand in a name. No byte ends the loop early, so that it takes many in a turn.
fn count_odd(bytes: &[u8]) -> u32
    requires { length bytes.now ≤ 65536 }
    ensures { result ≡ odd_bytes bytes.now }
{
    let mut count = 0;
    for byte in bytes {
        count += odd(*byte);
    }
    count
}

// Whether a name with this length byte may follow the last one, whatever its bytes are.
fn comes_next(last: &[u8], length: u8, name: &[u8]) -> bool
    ensures { result ≡ comes_next last.now length name.now }
{
    if usize::from(length) != name.len() {
        return false;
    }
    if name.is_empty() {
        return false;
    }
    if name.len() > 64 {
        return false;
    }
    compare(last, name).is_lt()
}

// Whether a name with this length byte may follow the last one.
pub fn follows(last: &[u8], length: u8, name: &[u8]) -> bool
    ensures { result ≡ may_follow last.now length name.now }
{
    if !comes_next(last, length, name) {
        return false;
    }
    count_odd(name) == 0
}

// Where the name ends whose length byte stands at `at`, at the latest with the table.
pub fn end_of(table: &[u8], at: usize) -> usize
    ensures { result ≡ name_end table.now at }
{
    if at >= table.len() {
        return table.len();
    }
    let length = usize::from(table[at]);
    let start = at + 1;
    if table.len() - start < length {
        return table.len();
    }
    start + length
}

// How many names the table has. The last name read is `table[from..at]`: at first that is the empty
// text, which any good name may follow. The bytes of the names are judged at the end, all at once: the odd bytes of a table are
// those of its length bytes that are odd, and no others.
pub fn check_names(table: &[u8]) -> Result<usize, Refusal>
    ensures { result ≡ table_reply table.now }
{
    if table.len() > 65536 {
        return Err(Refusal::BadTable);
    }
    let mut from = 0;
    let mut at = 0;
    let mut count: usize = 0;
    let mut lengths = 0;
    // No `for` here or below: the place moves on by as many bytes as a name has.
    while at < table.len() {
        if count >= 4096 {
            return Err(Refusal::BadTable);
        }
        let start = at + 1;
        let end = end_of(table, at);
        if !comes_next(&table[from..at], table[at], &table[start..end]) {
            return Err(Refusal::BadTable);
        }
        lengths += odd(table[at]);
        from = start;
        at = end;
        count += 1;
    }
    if count_odd(table) != lengths {
        return Err(Refusal::BadTable);
    }
    Ok(count)
}

// A stretch of the table: where it starts, and how many bytes it has.
#[derive(Clone, Copy, Debug, PartialEq, Eq)]
pub struct Stretch {
    pub start: usize,
    pub length: usize,
}

// Where the text of name k lies, at the end of the table where it has no such name.
fn stretch_at(table: &[u8], k: usize) -> Stretch
    ensures { Lies table.now k result }
{
    let mut at = 0;
    let mut left = k;
    while at < table.len() {
        let start = at + 1;
        let end = end_of(table, at);
        if left == 0 {
            let length = end - start;
            return Stretch { start, length };
        }
        at = end;
        left -= 1;
    }
    Stretch {
        start: at,
        length: 0,
    }
}

// Where the text of each name starts, found by one walk through the table; 0 past the last name.
pub fn find_places(table: &[u8], places: &mut [u32; 4096])
    requires { Unplaced table.now places.old }
    ensures { Places table.now places.new }
{
    let mut at = 0;
    let mut k = 0;
    while at < table.len() {
        let start = at + 1;
        places[k] = start as u32;
        at = end_of(table, at);
        k += 1;
    }
}

// The text of name k, as a stretch of the table, by the places of its names; empty where the table has no such name.
pub fn name_at<'a>(table: &'a [u8], places: &[u32; 4096], k: usize) -> &'a [u8]
    requires { Places table.now places.now }
    ensures { result.now ≡ name_text table.now k }
{
    if k >= 4096 {
        return &table[..0];
    }
    let start = wide(places[k]);
    if start == 0 {
        return &table[..0];
    }
    let end = end_of(table, start - 1);
    &table[start..end]
}

// Where the text of the name with this number lies in the table.
pub fn name_stretch(table: &[u8], number: u32) -> Result<Stretch, Refusal>
    ensures { result ≡ name_reply table.now number }
{
    let count = check_names(table)?;
    let k = wide(number);
    if k >= count {
        return Err(Refusal::OutOfRange);
    }
    Ok(stretch_at(table, k))
}
