//! The thirteen ways in which two spans lie to each other, and what a cut leaves of a span in each.
#![tactic(auto)]

pub mod laws;
mod relations;
mod remainder;
mod table;

pub use relations::{Rel, relation};
pub use remainder::{Ends, minus};
pub use table::{CASES, Case, Cases, Part};
