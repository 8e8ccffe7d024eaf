// Pieces of what the console prints: labels with numbers, identifiers, lists. Each function adds its text to a page of crate writing.
// Rests on crates writing and udid.
#![tactic(auto, using(crate::specs::PieceLaws::pieces))]

pub mod list;
pub mod piece;
