//! Deletions of spans: their union, their parts within bounds, and a newer layer over an older one.
#![tactic(auto)]

pub mod laws;
mod layers;
mod merged;
mod rows;
mod unite;
mod within;

pub use layers::over_all;
pub use merged::{over, over_owned};
pub use pb_rows::covers;
pub use unite::union;
pub use within::cut;
