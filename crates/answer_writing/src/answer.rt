// What a call answered, in words.
use std::{fmt, io};
use types::{Counters, Refusal};

// What a call answered, or the number of its refusal.
#[derive(Clone, Copy)]
pub struct Answer<T>(pub Result<T, Refusal>);

impl<T: fmt::Display> fmt::Display for Answer<T> {
    fn fmt<W: fmt::Write>(&self, f: &mut fmt::Formatter<W>) -> fmt::Result {
        match &self.0 {
            Ok(value) => write!(f, "{value}"),
            Err(refusal) => write!(f, "refused {}", refusal.number()),
        }
    }
}

// What is told behind `ok`.
#[derive(Clone, Copy)]
pub struct Good<T>(pub T);

impl<T: fmt::Display> fmt::Display for Good<T> {
    fn fmt<W: fmt::Write>(&self, f: &mut fmt::Formatter<W>) -> fmt::Result {
        write!(f, "ok {}", self.0)
    }
}

// One part of an answer, and a further one.
#[derive(Clone, Copy)]
pub struct Both<T, U>(pub T, pub U);

impl<T: fmt::Display, U: fmt::Display> fmt::Display for Both<T, U> {
    fn fmt<W: fmt::Write>(&self, f: &mut fmt::Formatter<W>) -> fmt::Result {
        write!(f, "{} {}", self.0, self.1)
    }
}

// A node's number, and the counters after.
pub fn stored(answer: (u32, Counters)) -> Both<u32, Both<usize, usize>> {
    let (number, c) = answer;
    Both(number, Both(c.nodes, c.words))
}

// An answer in one word.
pub fn yes(so: bool) -> &'static str {
    if so { "yes" } else { "no" }
}

// The line of a call on a type.
pub fn tell<T: fmt::Display + Drop>(
    rt: &impl Print,
    shape: &str,
    call: &str,
    answer: Result<T, Refusal>,
) -> io::Result<()> {
    println!(rt; "{shape}, {call}: {}", Answer(answer))
}
