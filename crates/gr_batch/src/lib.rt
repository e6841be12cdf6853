//! What places send to each other in a round and in a rebuild, and what comes of an event.
#![tactic(auto)]

mod batch;
mod body;
mod field;
mod holders;
mod item;
pub mod laws;
mod number;
mod outcome;
mod reading;
mod spelling;
mod stage;

pub use batch::{Batch, copy_of, stage_of};
pub use body::{Body, NewValue, Part};
pub use outcome::{Fate, Outcome};
pub use reading::decode;
pub use spelling::encode;
pub use stage::Stage;
