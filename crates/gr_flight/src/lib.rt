//! Batches on their way, and batches that a place was given.
#![tactic(auto)]

mod flight;
mod inbox;
mod newest;
mod positions;

pub use flight::Flight;
pub use inbox::Inbox;
