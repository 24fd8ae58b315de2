//! Gate logs and manifests over a disk in memory, for tests: each device call fails in turn, alone and with all after it, and
//! what an opening finds after a power cut is judged. And the machines of markers over a bucket in memory.
#![tactic(auto)]

mod disk;
mod log;
#[cfg(test)]
mod log_tests;
#[cfg(test)]
mod machines;
mod manifest;
#[cfg(test)]
mod manifest_tests;
#[cfg(test)]
mod marker_stories;
#[cfg(test)]
mod marker_tests;
mod markers;
#[cfg(test)]
mod rotation_sweep;
#[cfg(test)]
mod rotation_tests;
#[cfg(test)]
mod sweep;

pub use disk::new_disk;
pub use log::{appended, damaged, len_after, one_append, reopened};
pub use manifest::{
    catalogue_made, committed, committed_behind, created, drawn_and_committed, folder_reopened,
    make_file, three_steps,
};
pub use markers::made;
