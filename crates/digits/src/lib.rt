// The numbers that words say, in decimal or hexadecimal digits. Rests on lists.
#![tactic(auto)]

pub mod number;
