//! What a place starts from that lost its memory: the copies and edges that its log says.
#![tactic(auto)]

mod entry;
mod granted;
mod records;
mod spare;

pub use entry::LogEntry;
pub use granted::grant_into;
pub use records::{directory, edges, kept_edges};
pub use spare::{Rebuilt, blank};
