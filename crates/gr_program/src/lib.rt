//! Vertex programs: what a program computes, the laws that it keeps, and its synchronous rounds.
#![tactic(auto)]

mod copy;
mod datum;
pub mod laws;
mod program;

pub use copy::VertexCopy;
pub use datum::Datum;
pub use program::{ValueOf, VertexProgram};
