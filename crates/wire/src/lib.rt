// The bus's small vocabulary: addresses and wire bytes, symbols, words, and a difference. Rests on lists alone.
#![tactic(auto)]

pub mod address;
pub mod symbol;
pub mod word;
