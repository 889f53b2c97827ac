// Nodes in lent memory that is known to hold an arena: `stored` reads a node and finds one, `added` puts one behind the last;
// `children` has the children in a node's words.
#![tactic(auto)]

pub mod added;
pub mod children;
pub mod stored;
