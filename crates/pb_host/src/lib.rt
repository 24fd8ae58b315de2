//! Devices over the host's own system. They tell nothing of what they hold.
#![tactic(auto)]

mod bucket;
mod disk;
mod file;
mod folder;
mod folder_syncs;
mod found;
mod object_names;
mod object_walk;
mod objects;
mod streams;

pub use bucket::HostBucket;
pub use disk::HostDisk;
pub use streams::{HostIn, HostOut};
