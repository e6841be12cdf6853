//! Schedules that are played on a cluster, with their traces.
#![tactic(auto)]

mod append;
mod canonical;
mod ending;
mod event;
mod lines;
mod player;
mod stop;

pub use canonical::next_canonical;
pub use ending::Ending;
pub use player::play;
