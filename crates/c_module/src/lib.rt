// A module's own end of the bus for C: its state as a struct of numbers, which each call takes and hands back.
// What C calls stands in crate c_api and passes everything on to here.
#![tactic(auto)]

pub mod calls;
pub mod parts;
mod phases;
