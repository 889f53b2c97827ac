// Which values of a fix fit which nodes of a type: one bit a pair, from node 0 up, so that each pair is decided once. specs/Fits.antt
// says what fits. A row is the values that fit one node: `joined` makes it from the children's rows, `taken` value by value,
// `pairs` gathers the rows.
#![tactic(auto)]

pub mod joined;
pub mod pairs;
pub mod sets;
pub mod taken;
