//! The coordinator of a cluster: what it knows of the places, and what it decides.
#![tactic(auto)]

mod coordinator;
#[cfg(test)]
mod tests;

pub use coordinator::{Coordinator, Mode, Opening, Verdict};
