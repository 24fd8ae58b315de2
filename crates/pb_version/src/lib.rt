//! Versions of a store: which tables stand on which level, which backings they show, and how edits change them.
#![tactic(auto)]

mod broken;
mod copies;
mod five;
mod installed;
mod items;
pub mod laws;
mod made;
mod payloads;
mod prepared;
mod rules;
mod scans;
mod snapshot;
mod table;
mod version;

pub use broken::Broken;
pub use five::Five;
pub use prepared::Prepared;
pub use rules::MAX_TABLES;
pub(crate) use table::Levels;
pub use table::Table;
pub use version::Version;
