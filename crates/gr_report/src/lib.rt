//! The texts that the engine writes.
#![tactic(auto)]

mod endings;
mod items;
mod results;
mod trace;
mod words;

pub use endings::{push_lost, push_unfinished};
pub use results::push_results;
pub use trace::push_outcome;
