#![tactic(auto)]

mod distance;
mod hop;
mod hops;
mod labels;
mod shortest;

pub use distance::Distance;
pub use hop::{Hop, HopSum};
pub use hops::Hops;
pub use labels::Labels;
pub use shortest::Shortest;
