//! The vertices that have too few copies, and the copies that a repair grants.
#![tactic(auto)]

mod grant;
mod missing;

pub use grant::grants_for_short;
pub use missing::short;
