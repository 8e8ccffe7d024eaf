// What the console prints for what is no request, and for the answers of the codec. Rests on pieces.
#![tactic(auto, using(pieces::specs::PieceLaws::pieces))]

pub mod codec;
pub mod decoded;
pub mod refusal;
pub mod unclear;
