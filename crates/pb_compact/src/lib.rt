//! What a compaction writes: layers without their deletions, and layers cut into outputs.
#![tactic(auto)]

mod cut;
pub mod laws;
mod layers;
mod points;
mod values;

pub use layers::outputs;
pub use values::without_deletions;
