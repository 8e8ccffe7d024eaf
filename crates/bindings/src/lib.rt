// The binding buffer: the identifier that is bound to address a stands at 16 a, zeros where none is. Beside it the set of the addresses
// that are bound, which alone tells the all-zero identifier from none. Rests on wire, pool and udid.
#![tactic(auto)]

pub mod answer;
pub mod bound;
pub mod buffer;
