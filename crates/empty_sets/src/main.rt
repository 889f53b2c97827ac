// Both empty sets, displayed into lent bytes and compared with fixed byte strings.
#![tactic(auto)]

use display::display;
use std::io;
use types::Counters;
use types::arc_ty::Head;

// Whether the set without fields, closed or open and alone in an arena, is displayed as this text.
fn shows(open: bool, expected: &str) -> bool {
    let words = [Head::new(Head::ATTR_SET, open, false, 0).word];
    let starts = [0u32; 1];
    let c = Counters { nodes: 1, words: 1 };
    let mut text = [0u8; 16];
    match display(&[], &words, &starts, c, 0, &mut text) {
        Ok(length) => text.get(..length) == Some(expected.as_bytes()),
        Err(_) => false,
    }
}

// A line: the set, the text that it is compared with, and what comes of it.
fn tell(rt: &impl Print, open: bool, expected: &str) -> io::Result<()> {
    let set = if open { "open" } else { "closed" };
    let outcome = if shows(open, expected) {
        "the same"
    } else {
        "another text"
    };
    println!(rt; "{set}, {expected}: {outcome}")
}

fn main(rt: HostRuntime) -> io::Result<()> {
    tell(&rt, false, "{  }")?;
    tell(&rt, true, "{ ... }")?;
    tell(&rt, false, "{ ... }")?;
    tell(&rt, true, "{  }")?;
    tell(&rt, false, "{ }")
}
