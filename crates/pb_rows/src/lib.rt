//! Layers: rows and deletions of spans, which are applied to maps and read at a key.
#![tactic(auto)]

mod check;
mod hull;
pub mod laws;
mod layer;
mod look;
mod row;

pub use layer::{Layer, Layers, RowsError};
pub use look::{Found, covers};
pub use row::Row;
