// The commands of ARP: what each is, and its trace on the wire. Rests on encode and udid.
#![tactic(auto)]

pub mod choice;
pub mod command;
pub mod request;
