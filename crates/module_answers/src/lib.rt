// What the console prints for a module at its own end of the bus, and the module after the bytes that it is sent. Rests on pieces and module.
#![tactic(auto, using(pieces::specs::PieceLaws::pieces))]

pub mod heard;
pub mod line;
