// The codec for C, in numbers and structs of numbers: encoder and decoder over byte pairs and over 16-bit symbols, and the last data phase.
// What C calls stands in crate c_api and passes everything on to here, so that the library is built without much to prove again.
#![tactic(auto)]

pub mod answer;
pub mod codec;
pub mod last_data;
pub mod symbols;
