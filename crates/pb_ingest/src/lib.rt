//! Ingested tables: how deep each may come on top of a version, and the edit that adds them.
#![tactic(auto)]

pub mod laws;
mod level;
mod pairs;
mod planned;
mod written;

pub use level::{level_beside, level_for};
pub use pairs::first_overlap;
pub use planned::plan;
pub use written::{Written, WrittenTables};
