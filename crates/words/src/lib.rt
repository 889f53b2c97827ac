// The words of an arena, field by field, under the names of the Rust's files: `arc_ty` has heads and children, `attrset` the
// fields of a set. No other crate knows a bit position. `types` passes all of it on.
#![tactic(auto)]

pub mod arc_ty;
pub mod attrset;

// The two layouts of a field word, of the table's limits and so of a sheet. All but a sheet that is to be converted is `New`.
#[derive(Clone, Copy, Debug, PartialEq, Eq)]
pub enum Layout {
    Old,
    New,
}
