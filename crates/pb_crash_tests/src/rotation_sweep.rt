use super::manifest_tests::{FIRST, SECOND, edit_of};
use super::rotation_tests::{LONG, folder_of};
use super::sweep::numbers;
use super::{committed_behind, folder_reopened};
use pb_devices::Disk;
use pb_manifest::CommitError;
use pb_mem::MemDisk;
use pb_names::{FileKind, file_of};
use std::alloc::Global;
use std::process::Abort;
use std::test::Fail;

// The manifest is drawn behind so many numbers, one or none. The block is reserved by the calls 33 to 38 where one was drawn before,
// and by 34 to 39 where the commit draws the first; one call asks for the new manifest's name. That is made by 40 to 43 and has the
// snapshot by 49, `CURRENT` names it by 55, the old one goes by 56, and the edit is appended by 62.
fn fail_at(
    rt: &impl Abort,
    alloc: Global,
    drawn: u64,
    call: u64,
    last: u64,
    pick: u64,
) -> Result<(), Fail> {
    let fail = numbers(alloc, call, last)?;
    let mut disk = folder_of(rt, alloc, FIRST, LONG, fail, pick)?;
    let edit = edit_of(rt, alloc, SECOND)?;
    let answer = committed_behind(alloc, &mut disk, drawn, &edit);
    assert!(rt; matches!(answer, Err(CommitError::Disk)), "call {call}");
    disk.power();
    let disk = disk.again(Vec::new(alloc), pick);
    judge(rt, alloc, disk, drawn, call)
}

fn judge(
    rt: &impl Abort,
    alloc: Global,
    mut disk: MemDisk,
    drawn: u64,
    call: u64,
) -> Result<(), Fail> {
    let found = folder_reopened(alloc, &mut disk)?;
    let (mut manifest, mut version) = found.expect(rt, "a manifest");
    let number = manifest.number();
    let five = version.five();
    // No number that was drawn is drawn again.
    let again = manifest.draw(alloc, &mut disk, &mut version, 1)?;
    assert_eq!(rt; again, five.next, "call {call}");
    assert!(rt;
        five.accepted == 0 || five.accepted == 1 && call >= 57,
        "call {call}"
    );
    assert!(rt;
        five.next == 128 || five.next == 64 && call.saturating_add(drawn) < 40,
        "call {call}"
    );
    let turned = drawn.saturating_add(64);
    assert!(rt;
        number == 1 && call < 56 || number == turned && call >= 50,
        "call {call}, manifest {number}"
    );
    assert_manifests(rt, alloc, &mut disk, turned)?;
    Ok(())
}

// Beside manifest 1 and that of the number no manifest stands.
fn assert_manifests(
    rt: &impl Abort,
    alloc: Global,
    disk: &mut MemDisk,
    number: u64,
) -> Result<(), Fail> {
    let names = disk.list(alloc)?;
    for name in names.iter() {
        assert!(rt; is_expected(name.as_str(), number), "{name}");
    }
    Ok(())
}

fn is_expected(name: &str, number: u64) -> bool {
    match file_of(name) {
        Some(found) => {
            found.kind != FileKind::Manifest
                || found.number == Some(1)
                || found.number == Some(number)
        }
        None => true,
    }
}

// Calls of the rotation fail, alone or with all after, at each pick.
fn fail_each(
    rt: &impl Abort,
    alloc: Global,
    drawn: u64,
    first: u64,
    last: u64,
) -> Result<(), Fail> {
    for call in first..=last {
        for pick in 0..4 {
            fail_at(rt, alloc, drawn, call, call, pick)?;
            fail_at(rt, alloc, drawn, call, 80, pick)?;
        }
    }
    Ok(())
}

#[test]
fn calls_33_to_35_fail_within_a_block(rt: HostRuntime) -> Result<(), Fail> {
    fail_each(&rt, rt.alloc(), 1, 33, 35)
}

#[test]
fn calls_36_to_39_fail_within_a_block(rt: HostRuntime) -> Result<(), Fail> {
    fail_each(&rt, rt.alloc(), 1, 36, 39)
}

#[test]
fn calls_40_to_42_fail_within_a_block(rt: HostRuntime) -> Result<(), Fail> {
    fail_each(&rt, rt.alloc(), 1, 40, 42)
}

#[test]
fn calls_43_to_45_fail_within_a_block(rt: HostRuntime) -> Result<(), Fail> {
    fail_each(&rt, rt.alloc(), 1, 43, 45)
}

#[test]
fn calls_46_to_49_fail_within_a_block(rt: HostRuntime) -> Result<(), Fail> {
    fail_each(&rt, rt.alloc(), 1, 46, 49)
}

#[test]
fn calls_50_to_52_fail_within_a_block(rt: HostRuntime) -> Result<(), Fail> {
    fail_each(&rt, rt.alloc(), 1, 50, 52)
}

#[test]
fn calls_53_to_55_fail_within_a_block(rt: HostRuntime) -> Result<(), Fail> {
    fail_each(&rt, rt.alloc(), 1, 53, 55)
}

#[test]
fn calls_56_to_58_fail_within_a_block(rt: HostRuntime) -> Result<(), Fail> {
    fail_each(&rt, rt.alloc(), 1, 56, 58)
}

#[test]
fn calls_59_to_62_fail_within_a_block(rt: HostRuntime) -> Result<(), Fail> {
    fail_each(&rt, rt.alloc(), 1, 59, 62)
}

#[test]
fn calls_33_to_35_fail_at_its_end(rt: HostRuntime) -> Result<(), Fail> {
    fail_each(&rt, rt.alloc(), 0, 33, 35)
}

#[test]
fn calls_36_to_39_fail_at_its_end(rt: HostRuntime) -> Result<(), Fail> {
    fail_each(&rt, rt.alloc(), 0, 36, 39)
}

#[test]
fn calls_40_to_42_fail_at_its_end(rt: HostRuntime) -> Result<(), Fail> {
    fail_each(&rt, rt.alloc(), 0, 40, 42)
}

#[test]
fn calls_43_to_45_fail_at_its_end(rt: HostRuntime) -> Result<(), Fail> {
    fail_each(&rt, rt.alloc(), 0, 43, 45)
}

#[test]
fn calls_46_to_49_fail_at_its_end(rt: HostRuntime) -> Result<(), Fail> {
    fail_each(&rt, rt.alloc(), 0, 46, 49)
}

#[test]
fn calls_50_to_52_fail_at_its_end(rt: HostRuntime) -> Result<(), Fail> {
    fail_each(&rt, rt.alloc(), 0, 50, 52)
}

#[test]
fn calls_53_to_55_fail_at_its_end(rt: HostRuntime) -> Result<(), Fail> {
    fail_each(&rt, rt.alloc(), 0, 53, 55)
}

#[test]
fn calls_56_to_58_fail_at_its_end(rt: HostRuntime) -> Result<(), Fail> {
    fail_each(&rt, rt.alloc(), 0, 56, 58)
}

#[test]
fn calls_59_to_62_fail_at_its_end(rt: HostRuntime) -> Result<(), Fail> {
    fail_each(&rt, rt.alloc(), 0, 59, 62)
}
