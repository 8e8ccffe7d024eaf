// Text and numbers as text, written on a page: a lent buffer, and the place where the next character goes. Rests on lists.
#![tactic(auto, using(crate::specs::PageLaws::first_pages))]

pub mod page;
