// Each device call fails in turn, and what a power cut leaves is judged.
ghost use Rattle.std.specs.Prelude.{◌≡◌, None, IfOk};
ghost use Rattle.pb_mem.specs.Disk.{held};
ghost use Rattle.pb_names.specs.Spelling.{file_name};
ghost use Rattle.pb_names.specs.declared.file_kind.FileKind.TheVariants.{Catalogue};

use super::files::{assert_absent, assert_holds, catalogue_2, new_disk, put, table};
use pb_devices::Disk;
use pb_mem::MemDisk;
use std::alloc::{AllocError, Global};
use std::process::Abort;
use std::test::Fail;

/// How many calls fail behind the first where all do.
const MORE: u64 = 80;

/// The bytes of a file that no subject touches.
const OTHER: &[u8] = b"other";

/// What is driven over a disk, and judged after a power cut.
pub(crate) trait Subject {
    /// The device calls of a run in which none fails.
    fn calls(&self) -> u8;

    /// The steps that were acknowledged where this call fails, and none before it.
    fn steps_before(&self, call: u8) -> usize;

    /// Takes the steps over a folder without the catalogue, up to one that fails, and says how many were acknowledged.
    fn drive<R: Abort>(&self, rt: &R, alloc: Global, disk: &mut MemDisk) -> Result<usize, Fail>
        requires { (held disk.old).seen (file_name Catalogue 2) ≡ None };

    /// Judges what a power cut left after so many steps.
    fn judge<R: Abort>(
        &self,
        rt: &R,
        alloc: Global,
        disk: &mut MemDisk,
        done: usize,
    ) -> Result<(), Fail>;
}

fn numbers(alloc: Global, first: u64, last: u64) -> Result<Vec<u64>, AllocError> {
    let mut calls = Vec::new(alloc);
    for call in first..=last {
        calls.push(call)?;
    }
    Ok(calls)
}

/// A run without a fault, and one for each call, pick and way to fail: the call alone, or it and all after it.
pub(crate) fn sweep<S: Subject>(rt: &impl Abort, alloc: Global, subject: &S) -> Result<(), Fail> {
    run_whole(rt, alloc, subject)?;
    for call in 1..=subject.calls() {
        for pick in 0..4 {
            fail_at(rt, alloc, subject, call, 0, pick)?;
            fail_at(rt, alloc, subject, call, MORE, pick)?;
        }
    }
    Ok(())
}

/// A folder with another file alone, which is settled.
fn begun(rt: &impl Abort, alloc: Global) -> Result<MemDisk, Fail>
    ensures { IfOk result (λ disk. (held disk).seen (file_name Catalogue 2) ≡ None) }
{
    let mut disk = new_disk(alloc);
    put(rt, &mut disk, table(7), OTHER)?;
    assert_absent(rt, &mut disk, catalogue_2())?;
    Ok(disk)
}

fn run_whole<S: Subject>(rt: &impl Abort, alloc: Global, subject: &S) -> Result<(), Fail> {
    let mut disk = begun(rt, alloc)?;
    let before = disk.calls();
    let done = subject.drive(rt, alloc, &mut disk)?;
    let calls = subject.calls();
    assert_eq!(rt; disk.calls().saturating_sub(before), u64::from(calls));
    assert_eq!(rt; disk.faults(), 0);
    assert_eq!(rt; done, subject.steps_before(calls.saturating_add(1)));
    judge_after_power(rt, alloc, subject, disk, done, 0)
}

/// A run in which this call fails, and so many after it.
fn fail_at<S: Subject>(
    rt: &impl Abort,
    alloc: Global,
    subject: &S,
    call: u8,
    more: u64,
    pick: u64,
) -> Result<(), Fail> {
    let disk = begun(rt, alloc)?;
    let first = disk.calls().saturating_add(u64::from(call));
    let fail = numbers(alloc, first, first.saturating_add(more))?;
    let mut disk = disk.again(fail, pick);
    let done = subject.drive(rt, alloc, &mut disk)?;
    assert!(rt; disk.faults() > 0, "call {call}");
    assert_eq!(rt; done, subject.steps_before(call), "call {call}");
    judge_after_power(rt, alloc, subject, disk, done, pick)
}

fn judge_after_power<S: Subject>(
    rt: &impl Abort,
    alloc: Global,
    subject: &S,
    mut disk: MemDisk,
    done: usize,
    pick: u64,
) -> Result<(), Fail> {
    disk.power();
    let mut disk = disk.again(Vec::new(alloc), pick);
    assert_holds(rt, &mut disk, table(7), OTHER)?;
    subject.judge(rt, alloc, &mut disk, done)
}
