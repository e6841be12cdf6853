//! What the survivors take over from places that are gone: edges out of their logs, the copies that these edges
//! need, and the vertices of which no copy is left.
#![tactic(auto)]

mod ask;
mod ends;
mod gone;
mod grant;
mod masters;
mod retired;
mod taking;

pub use ask::asks;
pub use ends::LoggedEdge;
pub use gone::lost;
pub use grant::{AskFrom, grants};
pub use retired::retired_edges;
pub use taking::taken_edges;
