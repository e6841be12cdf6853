//! One place in a recovery or a repair: what it was asked for, what it grants, what is granted to it, and what it
//! stages and records at the end.
#![tactic(auto)]

mod asking;
mod granting;
mod place;
mod recording;
mod staging;

pub use asking::asked;
pub use granting::{granted, granted_to};
pub use place::PlaceInRebuild;
pub use recording::record;
pub use staging::stage;
