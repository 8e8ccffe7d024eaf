// The decoder over a whole trace: the fold of the step, the answer, and its number. Rests on step for one symbol and on pec for its table.
#![tactic(auto)]

pub mod answer;
mod ending;
mod refusal;
pub mod whole;
