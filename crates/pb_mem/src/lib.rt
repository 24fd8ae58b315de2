//! Devices in memory, for tests: each tells what it holds, and fails at the calls that it is given.
#![tactic(auto)]

mod bucket;
mod calls;
mod disk;
#[cfg(test)]
mod draws;
mod file;
mod folder;
pub mod laws;
mod names;
mod pieces;
mod slot;
mod stopped;
mod streams;

pub use bucket::MemBucket;
pub use disk::MemDisk;
pub use stopped::StoppedDisk;
pub use streams::{MemSink, MemSource};
