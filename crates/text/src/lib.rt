// Text in slices of bytes: lines, their comments and words. No function here reads or writes a file. Rests on lists.
#![tactic(auto)]

pub mod word;
