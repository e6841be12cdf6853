//! What the edges at a place bring to a vertex.
#![tactic(auto)]

mod gather;

pub use gather::gather_low;
