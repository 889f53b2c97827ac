// How answers are written: what a call answered (`answer`), and lent memory as it is left (`memory`).
#![tactic(auto)]

pub mod answer;
pub mod memory;
