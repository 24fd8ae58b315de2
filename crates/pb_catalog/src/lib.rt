//! The catalogue of a store: its id, and which number is which object, over crashes.
#![tactic(auto)]

mod catalog;
mod entries;
mod error;
pub mod laws;
mod log;
mod read;

pub use catalog::Catalog;
pub use error::CatalogError;
pub use pb_payloads::Entry;
