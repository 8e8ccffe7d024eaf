// Arbitration: targets that answer together, each the bits of its reply, and which of them is left on the wire. The first bit in
// which two identifiers differ decides. Rests on udid; what the wire does bit by bit, and that these answers are what it does, is in
// specs/Wire and proofs/WireLaws.
#![tactic(auto)]

pub mod leave;
pub mod win;
