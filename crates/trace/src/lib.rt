// What a transaction is on the wire: the protocols and their shapes, which transactions are allowed, and how long a trace is.
// Rests on wire. What a trace is, symbol by symbol, stands in specs/Trace.antt; the scope's table in specs/Rows.antt.
#![tactic(auto)]

pub mod length;
pub mod protocol;
pub mod shape;
pub mod transaction;
pub mod valid;
