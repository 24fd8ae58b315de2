//! A store at the command line: reads a script from standard input, runs it, and prints the replies.
#![tactic(auto)]

mod lines;
mod mark;
mod open_log;
mod opened;
mod pairs;
mod print;
mod run;
mod script;
mod setting;
mod step;
mod store;
mod store_error;
mod usage;
mod word;
mod words;

use pb_devices::Trace;
use pb_host::{HostDisk, HostIn, HostOut};
use pb_mem::MemBucket;
use pb_reply::Status;
use run::run;
use std::alloc::AllocError;
use std::io;
use std::process::ExitCode;
use words::host_words;

fn main(rt: HostRuntime) -> ExitCode {
    let status = match host_words(&rt) {
        Ok(words) => run_host(&rt, &words),
        Err(error) if error.kind() == io::ErrorKind::OutOfMemory => Status::Memory,
        // Words that are no text are none of the usage.
        Err(_) => run_host(&rt, &[]),
    };
    ExitCode::from(status.code())
}

/// Runs the words over the standard streams, the folders of the stores and an empty bucket.
fn run_host(rt: &HostRuntime, words: &[String]) -> Status {
    let Ok(mut disks) = host_disks(rt) else {
        return Status::Memory;
    };
    run(
        rt.alloc(),
        words,
        &mut HostIn::new(rt.stdin()),
        &mut HostOut::new(rt.stdout()),
        &mut disks,
        &mut MemBucket::new(rt.alloc(), Vec::new(rt.alloc())),
        &mut Trace::new(rt.alloc()),
    )
}

/// The folders of the stores A to H.
fn host_disks(rt: &HostRuntime) -> Result<[HostDisk; 8], AllocError> {
    let disk = |path: &str| HostDisk::new(rt.alloc(), *rt, path);
    Ok([
        disk("stores/A")?,
        disk("stores/B")?,
        disk("stores/C")?,
        disk("stores/D")?,
        disk("stores/E")?,
        disk("stores/F")?,
        disk("stores/G")?,
        disk("stores/H")?,
    ])
}
