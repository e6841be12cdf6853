//! What a place signals and calls in a round, and what it makes of the new values, signals and calls that it is sent.
#![tactic(auto)]

mod edge_targets;
mod laws;
mod signal;
mod take;
mod target;

pub use laws::low_vertices_are_not_signalled;
pub use signal::calls;
pub use take::{take_calls, take_signals, take_updates, take_woken};
pub use target::{Target, Targets, targets_from};
