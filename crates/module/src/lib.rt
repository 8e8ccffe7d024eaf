// The module's own end of the bus: which received bytes it acknowledges, what it obeys, and which bytes it supplies (SMBus 3.3.1, 6.6.3).
// Rests on wire, pec and udid.
#![tactic(auto)]

pub mod byte;
mod command;
mod effect;
mod identifier;
mod incoming;
pub mod power;
pub mod receive;
mod reset;
pub mod resume;
pub mod signal;
pub mod state;
pub mod supply;
