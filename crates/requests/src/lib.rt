// What a line of the console means: a request with its values, or the place and what was expected there. No function here reads a file or
// changes anything but a buffer that is lent. Rests on words, and on text and udid below it.
#![tactic(auto)]

mod encoding;
pub mod expected;
mod head;
pub mod list;
mod modules;
mod other;
pub mod request;
