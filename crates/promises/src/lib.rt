// What is promised, in one place: statements with short proofs that cite the layers' theorems. There is no code.
#![tactic(auto)]
