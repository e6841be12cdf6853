//! The copies at a place, in two layers.
#![tactic(auto)]

mod changes;
mod layer;
mod rows;

pub use rows::Rows;
