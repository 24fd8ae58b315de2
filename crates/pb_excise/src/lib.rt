//! Excises planned: what a version is without a span, and what its map is then.
#![tactic(auto)]

mod draft;
pub mod laws;
mod planned;

pub use planned::{parts, plan, tables_after};
