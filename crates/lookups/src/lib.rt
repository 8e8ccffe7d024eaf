// What the console prints for what a controller knows of its addresses: one of them, or all. Rests on pieces and arp.
#![tactic(auto, using(pieces::specs::PieceLaws::pieces))]

pub mod found;
pub mod grid;
