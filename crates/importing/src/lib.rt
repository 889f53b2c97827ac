// A type of one arena, which is only read, imported into another, whose names are those of another table: `fields` has what
// becomes of names, `lacking` finds a name that the target's table lacks, `nodes` is the recursion.
#![tactic(auto)]

mod fields;
pub mod lacking;
pub mod nodes;
