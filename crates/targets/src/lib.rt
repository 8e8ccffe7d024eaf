// The targets of the model bus, as a list of records of 18 bytes each: the identifier, highest byte first, the device address byte,
// and the resolved flag. What the ARP commands do to them, which of them wins on the wire, and which lists are refused.
// Rests on wire, pool, udid and arbitration.
#![tactic(auto)]

pub mod admit;
pub mod assign;
pub mod fields;
mod malformed;
pub mod prepare;
mod same;
mod taken;
pub mod winner;
