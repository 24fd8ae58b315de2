//! The marker world: stores that share one bucket, and never each other's folders, keep every object that one of them holds.
#![tactic(auto)]

mod edits;
mod events;
pub mod laws;
mod ledger;
mod marker_world;
mod records;
mod scans;
mod stages;
mod stages_of;

pub use events::{Event, Lender, Outcome, WorldError};
pub use marker_world::World;
pub use stages::Stage;
