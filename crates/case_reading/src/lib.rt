// The cases that programs answer: read from a reader, one behind the other (`input`), taken apart (`case`), and the memory that a
// host lends (`memory`).
#![tactic(auto)]

pub mod case;
pub mod input;
pub mod memory;
