// What C calls: include/headboarded.h has a declaration for each function named hb_, and says what it takes, answers and writes.
// A function takes numbers, structs of numbers and buffers of bytes. It answers for every input and keeps nothing. A truth value is a number:
// 0 is false, any other true. A symbol of a trace is two bytes, the low one first.
// Each only calls a proved function below, so that `rt lib`, which makes the archive, has little to prove.
// What only the benchmark calls stands in crate bench_api.
#![tactic(auto)]

pub mod codec;
pub mod controller;
pub mod ground;
pub mod model;
pub mod modules;
pub mod pools;
pub mod udids;
