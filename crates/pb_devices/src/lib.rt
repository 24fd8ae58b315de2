//! The outside of a store, as four traits (a disk, a bucket, a source and a sink), and the trace of a run.
#![tactic(auto)]

mod bucket;
mod disk;
mod fault;
mod streams;
mod trace;

pub use bucket::Bucket;
pub use disk::Disk;
pub use fault::{Failed, Fault, ListError};
pub use streams::{Sink, Source};
pub use trace::{Mark, Trace};
