// The words of the scope's numbers, said once, and answers with them: where the first line of an answer begins with a number other than 0,
// its words stand at that line's end. Rests on text, digits and writing.
#![tactic(auto, using(writing::specs::PageLaws::pages))]

pub mod meaning;
pub mod worded;
