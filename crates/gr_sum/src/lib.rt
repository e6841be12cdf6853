//! Programs that join by a sum or by a bitwise or: rank, in-degree, cores and reachability.
#![tactic(auto)]

mod amount;
mod in_degree;
mod k_core;
mod rank;
mod reach;

pub use amount::Amount;
pub use in_degree::InDegree;
pub use k_core::Core;
pub use rank::Rank;
pub use reach::Reach;
