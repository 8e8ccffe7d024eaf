// Which address a target gets and why, and when two claim it. No state is kept here. Rests on slots, pool and udid.
#![tactic(auto)]

pub mod choose;
pub mod claim;
