// Traces in which bytes were changed on the way: where the shape stays, and what the decoder answers then. No code. Rests on catches and decode.
#![tactic(auto)]
