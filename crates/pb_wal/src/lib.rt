//! Log entries: a changing command with its count, spelled as the payload of a log.
#![tactic(auto)]

mod decode;
mod encode;
mod entry;
mod kinds;
mod parts;

pub use entry::{Change, Entry};
