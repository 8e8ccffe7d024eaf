// What one word of a request says: a verb, an event, a protocol, a byte, a symbol, an identifier or its end, or a mark. Rests on text, digits, names and udid.
#![tactic(auto)]

pub mod event;
pub mod verb;
pub mod word;
