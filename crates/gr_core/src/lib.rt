//! A cluster of places that run one program together.
#![tactic(auto)]

mod cluster;
mod host;
mod load;
mod targets;
mod turn;

pub use cluster::Cluster;
pub use host::Host;

#[cfg(test)]
mod tests;
