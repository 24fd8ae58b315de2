//! Edits of a version: what a payload of a manifest says, and its one spelling.
#![tactic(auto)]

mod created;
mod deleted;
mod edit;
mod fields;
mod grammar;
mod item;
mod item_lists;
pub mod laws;
mod physical;
mod read;
mod removed;
mod spell;
mod virtual_table;

pub use created::Created;
pub use deleted::Deleted;
pub use edit::Edit;
pub use grammar::LAST_LEVEL;
pub use item_lists::{Backings, Deletions, Numbers, Physicals, Virtuals};
pub use physical::Physical;
pub use virtual_table::Virtual;
