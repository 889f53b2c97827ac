// What is read of a node in memory that is known to hold an arena: its kind and its first child.
#![tactic(auto)]

pub mod nodes;
