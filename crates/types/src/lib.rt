// What every other crate stands on: words, kinds and nodes (`arc_ty`, `attrset`, after the Rust's files),
// and the values that calls hand on.
#![tactic(auto)]

pub mod arc_ty;
pub mod attrset;
pub mod refusal;
pub mod short_text;

pub use refusal::Refusal;
pub use std::cmp::Ordering;

// How many nodes an arena has, and how many words they take.
#[derive(Clone, Copy, Debug, PartialEq, Eq)]
pub struct Counters {
    pub nodes: usize,
    pub words: usize,
}
