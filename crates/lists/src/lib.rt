// Small definitions and laws that several crates cite: choices and tests on Bools, what holds of each element of a list,
// and a list written onto the front of another. There is no code, and it rests on nothing.
#![tactic(auto)]
