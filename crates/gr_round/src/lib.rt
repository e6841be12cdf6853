//! What a place does in a round: it computes the stages, sends their batches to the other parties, and reports. How far
//! it is in a rebuild, and what it does next there, goes by the same stages.
#![tactic(auto)]

mod act;
mod body;
mod brought;
mod due;
mod kept;
mod line;
mod next;
mod party;
mod staging;
mod step;
mod values;
mod view;

pub use act::Act;
pub use due::due_count;
pub use line::{PlaceRound, is_end, is_of_targets, others_of};
pub use party::Given;
pub use step::Step;
pub use view::RoundView;
