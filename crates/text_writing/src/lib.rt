// The text of a type, written into lent bytes piece by piece, each behind what is written so far (`appending`). specs/Text.antt
// says what the text is.
#![tactic(auto)]

pub mod children;
pub mod pieces;
