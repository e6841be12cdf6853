//! The synchronous rounds of a program over the graph that is not cut.
//!
//! The edges are indexed once by their targets and by their sources. A round then costs in proportion to the edges
//! into its active vertices and out of those whose change wakes, not to the whole graph.
#![tactic(auto)]

ghost use Rattle.std.specs.Prelude.{◌<◌, length};

mod ends;
mod gather;
mod index;
mod round;
mod rounds;
mod rows;
mod wake;

pub use rounds::{PlainEnd, plain_rounds};
