//! Items with a number of their own: the last one of each number, and two rising lists as one. Hints of where a number
//! stands in a rising list.
#![tactic(auto)]

mod hints;
mod last;
mod merging;
mod numbered;

pub use hints::SearchHints;
pub use last::last_of_each;
pub use merging::merge;
pub use numbered::Numbered;
