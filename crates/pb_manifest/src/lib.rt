//! A manifest: the version of a store, kept in a folder over crashes, and the numbers that the store draws.
#![tactic(auto)]

mod append;
mod create;
mod error;
pub mod laws;
mod manifest;
mod numbers;
mod open;
mod rotation;

pub use error::{CommitError, ManifestError};
pub use manifest::Manifest;
pub use numbers::BLOCK;
pub use rotation::{ROTATED_LEN, ROTATED_TIMES};
