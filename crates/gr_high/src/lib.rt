//! The parts of sums that are sent to the masters of high vertices.
#![tactic(auto)]

mod partial;

pub use partial::{join_partials, partials};
