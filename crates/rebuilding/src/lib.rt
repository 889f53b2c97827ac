// One node of a pass, apart from the recursion: which of its children are simplified, and the node with other children.
#![tactic(auto)]

pub mod children;
pub mod node;
