ghost use Rattle.std.specs.Prelude.{ℕ, List};
ghost use Rattle.pb_crash_tests.specs.Driven.{NeverStood};
ghost use Rattle.pb_mem.specs.Disk.{held};

use super::new_disk;
use pb_devices::Disk;
use pb_mem::MemDisk;
use std::alloc::{AllocError, Global};
use std::process::Abort;
use std::test::Fail;

/// The greatest number of a call in a sweep.
const LAST: u64 = 80;

/// What is driven over a disk, and judged after a power cut.
pub(crate) trait Subject {
    /// The device calls of a run in which none fails.
    fn calls(&self) -> u8;

    /// The steps that were acknowledged where this call fails, and none before it.
    fn steps_before(&self, call: u8) -> usize;

    /// Takes the steps over a new disk, up to one that fails, and says how many were acknowledged.
    fn drive<R: Abort>(&self, rt: &R, alloc: Global, disk: &mut MemDisk) -> Result<usize, Fail>
        requires { (name : List ℕ) → NeverStood (held disk.old) name };

    /// Opens what a power cut left after so many steps, and judges it.
    fn judge<R: Abort>(
        &self,
        rt: &R,
        alloc: Global,
        disk: &mut MemDisk,
        done: usize,
    ) -> Result<(), Fail>;
}

pub(crate) fn numbers(alloc: Global, first: u64, last: u64) -> Result<Vec<u64>, AllocError> {
    let mut calls = Vec::new(alloc);
    for call in first..=last {
        calls.push(call)?;
    }
    Ok(calls)
}

/// A run without a fault, and one for each call, pick and way to fail: the call alone, or it and all after it.
pub(crate) fn sweep<S: Subject>(rt: &impl Abort, alloc: Global, subject: &S) -> Result<(), Fail> {
    run_whole(rt, alloc, subject)?;
    for call in 1..=subject.calls() {
        for pick in 0..4 {
            fail_at(rt, alloc, subject, call, false, pick)?;
            fail_at(rt, alloc, subject, call, true, pick)?;
        }
    }
    Ok(())
}

/// A run without a fault, and its device calls.
pub(crate) fn run_whole<S: Subject>(
    rt: &impl Abort,
    alloc: Global,
    subject: &S,
) -> Result<(), Fail> {
    let calls = subject.calls();
    let mut disk = new_disk(alloc, Vec::new(alloc), 0);
    let done = subject.drive(rt, alloc, &mut disk)?;
    assert_eq!(rt; disk.calls(), u64::from(calls));
    assert_eq!(rt; disk.faults(), 0);
    assert_eq!(rt; done, subject.steps_before(calls.saturating_add(1)));
    judge_after_power(rt, alloc, subject, disk, done, 0)
}

fn fail_at<S: Subject>(
    rt: &impl Abort,
    alloc: Global,
    subject: &S,
    call: u8,
    onward: bool,
    pick: u64,
) -> Result<(), Fail> {
    let first = u64::from(call);
    let last = if onward { LAST } else { first };
    let mut disk = new_disk(alloc, numbers(alloc, first, last)?, pick);
    let done = subject.drive(rt, alloc, &mut disk)?;
    assert!(rt; disk.faults() > 0, "call {call}");
    assert_eq!(rt; done, subject.steps_before(call), "call {call}");
    judge_after_power(rt, alloc, subject, disk, done, pick)
}

fn judge_after_power<S: Subject>(
    rt: &impl Abort,
    alloc: Global,
    subject: &S,
    mut disk: MemDisk,
    done: usize,
    pick: u64,
) -> Result<(), Fail> {
    disk.power();
    let mut disk = disk.again(Vec::new(alloc), pick);
    subject.judge(rt, alloc, &mut disk, done)
}
