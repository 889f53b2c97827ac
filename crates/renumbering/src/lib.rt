// A type with its variables numbered by their places in a list: `vars` is one variable, `nodes` the recursion.
#![tactic(auto)]

pub mod nodes;
pub mod vars;
