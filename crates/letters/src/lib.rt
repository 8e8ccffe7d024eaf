// Symbols as letters: S, P, A and N, a byte as two upper-case hexadecimal digits, and a number that is no symbol in decimal.
// Rests on pieces and writing.
#![tactic(auto, using(pieces::specs::PieceLaws::pieces))]

pub mod encoded;
pub mod letter;
