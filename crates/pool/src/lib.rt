// The pool of used addresses: one bit for each of the 128. Rests on lists and wire.
#![tactic(auto)]

mod bit;
pub mod free;
pub mod members;
pub mod start;

// Kept: two numbers of 64 bits, which C gets as they are (HbPool).
// Bit k of low is address k, bit k of high is address 64 + k; a one is an address in use.
#[derive(Clone, Copy)]
pub struct Pool {
    pub low: u64,
    pub high: u64,
}
