// Scripts over a disk in memory whose calls fail.
use super::*;
use pb_mem::{MemBucket, MemDisk, MemSink, MemSource};
use std::process::Abort;
use std::test::Fail;

/// Runs a script over A's disk, and hands the disk back with the status and what was printed.
fn over_disk(
    rt: &impl Abort,
    alloc: Global,
    script: &[u8],
    disk: MemDisk,
) -> Result<(Status, Vec<u8>, MemDisk), Fail> {
    let words = [String::from_str(alloc, "run")?];
    let mut source = MemSource::new(script.to_vec(alloc)?, Vec::new(alloc));
    let mut sink = MemSink::new(alloc, Vec::new(alloc));
    let mut disks = Vec::new(alloc);
    disks.push(disk).map_err(|_| "memory")?;
    for _ in 1..8 {
        disks
            .push(MemDisk::new(alloc, Vec::new(alloc), 0))
            .map_err(|_| "memory")?;
    }
    assert_eq!(rt; disks.len(), 8);
    let status = run(
        alloc,
        &words,
        &mut source,
        &mut sink,
        &mut disks,
        &mut MemBucket::new(alloc, Vec::new(alloc)),
        &mut Trace::new(alloc),
    );
    let disk = disks.into_iter().next().ok_or("a disk")?;
    Ok((status, sink.taken().to_vec(alloc)?, disk))
}

#[test]
fn a_failed_gate_write_is_not_acknowledged(rt: HostRuntime) -> Result<(), Fail> {
    let rows: [(u64, &[u8]); 2] = [
        (0, b"opened 0\nrefused 22 DiskFault\nopened 0\nnone\n"),
        (1, b"opened 0\nrefused 22 DiskFault\nopened 1\nvalue 1\n"),
    ];
    for (pick, want) in rows {
        let disk = MemDisk::new(rt.alloc(), [11].to_vec(rt.alloc())?, pick);
        let script = b"open A\nA set a 1\nopen A\nA get a\n";
        let (status, printed, _disk) = over_disk(&rt, rt.alloc(), script, disk)?;
        assert_eq!(rt; status, Status::Device, "pick {pick}");
        assert_eq!(rt; printed.as_slice(), want, "pick {pick}");
    }
    Ok(())
}

const SETS: &[u8] = b"open A\nA set a 1\nA set b 2\nA set a 3\n";

const LOOKS: &[u8] = b"open A\nA get a\nA get b\n";

/// What a plain map answers after so many of the sets.
fn answers(sets: usize) -> &'static [u8] {
    match sets {
        0 => b"opened 0\nnone\nnone\n",
        1 => b"opened 1\nvalue 1\nnone\n",
        2 => b"opened 2\nvalue 1\nvalue 2\n",
        _ => b"opened 3\nvalue 3\nvalue 2\n",
    }
}

fn accepted(printed: &[u8]) -> usize {
    printed
        .windows(3)
        .filter(|part| *part == b"ok ".as_slice())
        .count()
}

fn failing(alloc: Global, call: u8, onward: bool) -> Result<Vec<u64>, Fail> {
    let mut calls = Vec::new(alloc);
    let last = if onward { 60 } else { call };
    for number in call..=last {
        calls.push(u64::from(number))?;
    }
    Ok(calls)
}

fn fail_a_call(
    rt: &impl Abort,
    alloc: Global,
    call: u8,
    onward: bool,
    pick: u64,
) -> Result<(), Fail> {
    let disk = MemDisk::new(alloc, failing(alloc, call, onward)?, pick);
    let (status, printed, mut disk) = over_disk(rt, alloc, SETS, disk)?;
    let count = accepted(&printed);
    assert_eq!(rt; status == Status::Success, call > 24, "call {call}");
    assert_eq!(rt; count == 3, call > 24, "call {call}");
    disk.power();
    let disk = disk.again(Vec::new(alloc), pick);
    let (_status, printed, _disk) = over_disk(rt, alloc, LOOKS, disk)?;
    let found = printed.as_slice();
    assert!(rt;
        found == answers(count) || found == answers(count.saturating_add(1)) && call > 6,
        "call {call}, pick {pick}"
    );
    Ok(())
}

#[test]
fn a_failing_call_loses_no_acknowledged_set(rt: HostRuntime) -> Result<(), Fail> {
    for call in 1..26 {
        for pick in 0..4 {
            fail_a_call(&rt, rt.alloc(), call, false, pick)?;
            fail_a_call(&rt, rt.alloc(), call, true, pick)?;
        }
    }
    Ok(())
}
