// The values of a fix: whether lent words are one, and where each value stands. specs/Fix.antt says what a fix is.
#![tactic(auto)]

ghost use Rattle.std.specs.Prelude.{◌≤◌, ◌≡◌};
ghost use Rattle.types.specs.Node.{below};
ghost use Rattle.fix_values.specs.Values.{is_value};
ghost use Rattle.fix_values.specs.Inner.{field_good, fields_good, body_good, Behind, NextValue, Unplaced, Checks, InFix, ValueAt};

use types::arc_ty::{Head, child, wide};
use types::attrset::{field_name, field_optional, field_zero};

// The kinds of value that have children; the kinds before them have none.
pub const LIST: u32 = 6;

pub const SET: u32 = 7;

// Whether each word is the number of a value before this one.
fn elements_good(words: &[u32], values: usize) -> bool
    ensures { result ≡ below values words.now }
{
    words.iter().all(|word| wide(*word) < values)
}

// Whether a field word has no bit set that is to be zero, a name from `low` on that the table has, and a value before this one.
fn field_good(word: u32, low: usize, values: usize, names: usize) -> bool
    ensures { result ≡ field_good names values low word }
{
    let name = field_name(word);
    let zeros = !field_optional(word) & (field_zero(word) == 0);
    let named = (low <= name) & (name < names);
    zeros & (named & (wide(child(word)) < values))
}

// Whether each field word is good, and the names rise: `low` is the least number that the next name may have.
fn fields_good(words: &[u32], values: usize, names: usize) -> bool
    ensures { result ≡ fields_good names values 0 words.now }
{
    let mut low = 0;
    for word in words {
        if !field_good(*word, low, values, names) {
            return false;
        }
        low = field_name(*word) + 1;
    }
    true
}

// Whether the words after a value's head are good under a head of this kind.
fn body_good(kind: u32, body: &[u32], values: usize, names: usize) -> bool
    ensures { result ≡ body_good names values kind body.now }
{
    if kind == LIST {
        return elements_good(body, values);
    }
    if kind == SET {
        return fields_good(body, values, names);
    }
    (kind < LIST) & (body.len() == 0)
}

// Whether the words are those of a value, after so many values and under a table of so many names.
fn value_good(value: &[u32], values: usize, names: usize) -> bool
    requires { values ≤ 4096 }
    ensures { result ≡ is_value names values value.now }
{
    if value.len() == 0 {
        return false;
    }
    let head = Head { word: value[0] };
    let body = &value[1..];
    let zeros = (head.zero() == 0) & (!head.opened() & !head.dynamic());
    if !(zeros & (head.count() == body.len())) {
        return false;
    }
    body_good(head.kind(), body, values, names)
}

// How many words the value takes that begins at `at`, after so many values.
fn next_value(fix: &[u32], at: usize, values: usize, names: usize) -> Option<usize>
    requires { Behind fix.now at values }
    ensures { NextValue names values fix.now at result }
{
    let head = Head { word: fix[at] };
    let len = 1 + head.count();
    if fix.len() - at < len {
        return None;
    }
    let end = at + len;
    if !value_good(&fix[at..end], values, names) {
        return None;
    }
    Some(len)
}

// How many values the fix has, with the place of each; or 0 where the words are no fix under a table of so many names. No `Option`:
// a fix has a value, so that 0 says all, and the place of a fix's last value needs the count either way.
pub fn check_fix(fix: &[u32], names: usize, places: &mut [usize; 1024]) -> usize
    requires { Unplaced places.old }
    ensures { Checks names fix.now places.new result }
{
    // The place moves on by a value's length: a `for` over the numbers would need a second test, whether the words end there.
    let mut n = 0;
    let mut at = 0;
    while at < fix.len() {
        if n >= 1024 {
            return 0;
        }
        let Some(len) = next_value(fix, at, n, names) else {
            return 0;
        };
        places[n] = at;
        at += len;
        n += 1;
    }
    n
}

// The words of value v.
pub fn value_at<'a>(fix: &'a [u32], places: &[usize], count: usize, v: usize) -> &'a [u32]
    requires { InFix fix.now places.now count v }
    ensures { ValueAt fix.now places.now count v result.now }
{
    let at = places[v];
    let head = Head { word: fix[at] };
    let end = at + 1 + head.count();
    &fix[at..end]
}
