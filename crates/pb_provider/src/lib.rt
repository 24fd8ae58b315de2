//! Bytes by number: a table file is whole and durable or nobody has named it, and each number's bytes stand in one place.
#![tactic(auto)]

mod error;
mod local;
mod provider;
mod read_whole_error;
mod reads;
mod stages;
mod whole;

pub use error::ReadError;
pub use provider::Provider;
pub use read_whole_error::ReadWholeError;
pub use stages::is_stored;
