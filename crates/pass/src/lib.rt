// One pass of `simplify`: `apply` is the recursion, `cache` what it remembers, `once` the pass over a type.
#![tactic(auto)]

pub mod apply;
mod cache;
pub mod once;
