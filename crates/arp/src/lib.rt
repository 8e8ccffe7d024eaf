// The ARP controller: which command comes next for each trace received, and which addresses are bound. Rests on hearing, slots and pool.
#![tactic(auto)]

pub mod bound;
pub mod gone;
pub mod issue;
pub mod lookup;
pub mod next;
pub mod settle;
pub mod start;
pub mod state;
