// What a model run tells of the end of its pass: the answer, and the bindings in a lent buffer. Rests on arp and bindings.
#![tactic(auto)]

pub mod answer;
pub mod bindings_of;
