// What the console prints for the shelf, for what the controller hands out, and for a model run. Rests on pieces.
#![tactic(auto, using(pieces::specs::PieceLaws::pieces))]

pub mod command;
pub mod run;
pub mod shelf;
