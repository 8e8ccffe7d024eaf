// The decoder's step on one symbol: may it stand here (fits), and the state after it (moved). Rests on wire, pec and trace.
#![tactic(auto)]

pub mod fits;
pub mod moved;
pub mod next;
pub mod state;
