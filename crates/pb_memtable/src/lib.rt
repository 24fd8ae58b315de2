//! A memtable: the changing commands of a log in memory, with their newest rows in key order and their deletions apart.
#![tactic(auto)]

mod adding;
mod changes;
mod copies;
pub mod laws;
mod layers;
mod memtable;
mod ranges;
mod ready;
mod search;
mod within;

pub use memtable::Memtable;
