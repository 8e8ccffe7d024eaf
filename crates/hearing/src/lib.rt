// What a received trace tells of the command that is outstanding. No state is kept here. Rests on commands and decode.
#![tactic(auto)]

mod heard;
pub mod told;
