//! The lines of a text, and the fields of a line.
#![tactic(auto)]

mod field;
mod line;

pub use field::next_field;
pub use line::{line_len, without_return};
