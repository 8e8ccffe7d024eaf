// The kind of a wrong symbol. Rests on step for the state and on trace for the shape.
#![tactic(auto)]

pub mod kind;
