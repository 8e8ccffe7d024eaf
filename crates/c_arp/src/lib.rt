// The ARP controller, target lists and the model run for C, in numbers and structs of numbers: pools, identifiers, commands, passes over a
// list of traces, choices and reports, the check of a list of targets, a whole pass against targets.
// What C calls stands in crate c_api and passes everything on to here, so that the library is built without much to prove again.
#![tactic(auto)]

pub mod check;
pub mod entry;
pub mod kinds;
pub mod model;
pub mod parts;
pub mod pass;
