// The answer of the controller's step in words: what the trace was taken for, by the command that was outstanding. Rests on hearing for what a
// trace tells, on scan for the decoder's answer, and on meanings for the words of a number.
#![tactic(auto, using(pieces::specs::PieceLaws::pieces))]

pub mod stepped;
mod taken;
