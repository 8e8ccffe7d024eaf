// The model of the bus with its targets: a pass of the controller's steps over the codec's traces, against lent target records.
// Rests on arp, encode, targets and report, on wire, pool and udid below them, and for its promise on rule: there a pass ends as the plain
// rule says.
#![tactic(auto)]

mod act;
mod pass;
pub mod run;
mod traces;
mod turn;
