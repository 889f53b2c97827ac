// Walks over the nodes of an arena: `signs` marks the nodes that have a place, by sign, `reach` those that are reachable, whose
// count is a call open to a host, and `removable` those with places of one sign only.
#![tactic(auto)]

pub mod reach;
pub mod removable;
pub mod signs;
