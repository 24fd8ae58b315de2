// A script over a disk that is stopped after so many calls, which stands for a power cut between two of them.
use super::*;
use pb_mem::{MemBucket, MemDisk, MemSink, MemSource, StoppedDisk};
use std::process::Abort;
use std::test::Fail;

/// Runs a script over A's disk, stopped after so many calls, and hands it back with what was printed.
fn over_stopped(
    rt: &impl Abort,
    alloc: Global,
    script: &[u8],
    disk: MemDisk,
    calls: u64,
) -> Result<(Vec<u8>, StoppedDisk<MemDisk>), Fail> {
    let words = [String::from_str(alloc, "run")?];
    let mut source = MemSource::new(script.to_vec(alloc)?, Vec::new(alloc));
    let mut sink = MemSink::new(alloc, Vec::new(alloc));
    let mut disks = Vec::new(alloc);
    disks
        .push(StoppedDisk::new(disk, calls))
        .map_err(|_| "memory")?;
    for _ in 1..8 {
        let other = MemDisk::new(alloc, Vec::new(alloc), 0);
        disks
            .push(StoppedDisk::new(other, 0))
            .map_err(|_| "memory")?;
    }
    assert_eq!(rt; disks.len(), 8);
    let _status = run(
        alloc,
        &words,
        &mut source,
        &mut sink,
        &mut disks,
        &mut MemBucket::new(alloc, Vec::new(alloc)),
        &mut Trace::new(alloc),
    );
    let disk = disks.into_iter().next().ok_or("a disk")?;
    Ok((sink.taken().to_vec(alloc)?, disk))
}

/// Stops the disk after so many calls, cuts the power and opens again. Whether a call was refused.
fn cut_after(rt: &impl Abort, alloc: Global, calls: u64, pick: u64) -> Result<bool, Fail> {
    let disk = MemDisk::new(alloc, Vec::new(alloc), pick);
    let (printed, mut disk) = over_stopped(rt, alloc, b"open A\nA set a 1\n", disk, calls)?;
    let accepted = printed.ends_with(b"ok 1\n");
    let refused = disk.faults() > 0;
    disk.power();
    let disk = disk.into_inner().again(Vec::new(alloc), pick);
    let (printed, _disk) = over_stopped(rt, alloc, b"open A\n", disk, 60)?;
    let found = printed.as_slice();
    assert!(rt;
        found == b"opened 1\n".as_slice() || found == b"opened 0\n".as_slice() && !accepted,
        "{calls} calls, pick {pick}"
    );
    assert_eq!(rt; accepted, calls == 12, "{calls} calls, pick {pick}");
    Ok(refused)
}

#[test]
fn a_cut_between_two_calls_leaves_an_acknowledged_set(rt: HostRuntime) -> Result<(), Fail> {
    for calls in 0..13 {
        for pick in 0..4 {
            let refused = cut_after(&rt, rt.alloc(), calls, pick)?;
            assert_eq!(rt; refused, calls < 12, "{calls} calls, pick {pick}");
        }
    }
    Ok(())
}
