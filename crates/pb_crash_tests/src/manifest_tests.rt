ghost use Rattle.std.specs.Prelude.{◌≡◌, ◌≤◌, ℕ, List, None, IfOk, IfSome, OnOk};
ghost use Rattle.pb_crash_tests.specs.Driven.{NeverStood};
ghost use Rattle.pb_edit.specs.Grammar.{IsEdit};
ghost use Rattle.pb_manifest.specs.Manifest.{EachManifest, manifest_name};
ghost use Rattle.pb_mem.specs.Disk.{held};

use super::sweep::{Subject, sweep};
use super::{
    catalogue_made, committed, created, folder_reopened, make_file, new_disk, three_steps,
};
use pb_devices::Disk;
use pb_edit::Edit;
use pb_manifest::{CommitError, Manifest, ManifestError};
use pb_mem::MemDisk;
use pb_names::{FileKind, Name, current, file};
use pb_version::Version;
use std::alloc::Global;
use std::process::Abort;
use std::test::Fail;

/// The edit of a new store: it accepted 0, reserves the numbers below 64, and has the log 3 and format 1.
pub(crate) const FIRST: &[u8] = b"\x01\x00\x02\x40\x03\x03\x04\x00\x05\x01";

/// One command more was accepted.
pub(crate) const SECOND: &[u8] = b"\x01\x01";

fn manifest_1() -> Name
    ensures { result ≡ manifest_name 1 }
{
    file(FileKind::Manifest, 1)
}

fn catalogue_2() -> Name {
    file(FileKind::Catalogue, 2)
}

pub(crate) fn edit_of(rt: &impl Abort, alloc: Global, bytes: &[u8]) -> Result<Edit, Fail>
    ensures { IfOk result IsEdit }
{
    let edit = Edit::decode(alloc, bytes)?;
    let edit = edit.expect(rt, "an edit");
    Ok(edit)
}

fn first_edit(rt: &impl Abort, alloc: Global) -> Result<Edit, Fail>
    ensures form { IfOk result IsEdit }
    ensures next { IfOk result (λ edit. IfSome edit.next (λ end. 4 ≤ end)) }
{
    let first = edit_of(rt, alloc, FIRST)?;
    assert_eq!(rt; first.next, Some(64));
    Ok(first)
}

// One call.
fn assert_absent(rt: &impl Abort, disk: &mut MemDisk, name: Name) -> Result<(), Fail>
    ensures { OnOk result ((held disk.new).seen name ≡ None) }
{
    assert!(rt; disk.len(name.as_str())?.is_none());
    Ok(())
}

fn steps_with_first(
    alloc: Global,
    disk: &mut MemDisk,
    first: &Edit,
    second: &Edit,
) -> Result<usize, Fail>
    requires first { IsEdit first.now }
    requires next { IfSome first.now.next (λ end. 4 ≤ end) }
    requires second { IsEdit second.now }
    requires new { (name : List ℕ) → NeverStood (held disk.old) name }
{
    let Ok(()) = catalogue_made(disk) else {
        return Ok(0);
    };
    let done = three_steps(alloc, disk, first, second);
    if done < 3 {
        return Ok(done);
    }
    let Ok(_found) = folder_reopened(alloc, disk) else {
        return Ok(3);
    };
    Ok(4)
}

#[derive(Drop)]
struct Found {
    accepted: u64,
    next: u64,
    drawn: u64,
}

// What an opening finds, and the number that is drawn first after it.
fn read_back(alloc: Global, disk: &mut MemDisk) -> Result<Option<Found>, Fail> {
    let Some((mut manifest, mut version)) = folder_reopened(alloc, disk)? else {
        return Ok(None);
    };
    let accepted = version.five().accepted;
    let next = version.five().next;
    let drawn = manifest.draw(alloc, disk, &mut version, 1)?;
    Ok(Some(Found {
        accepted,
        next,
        drawn,
    }))
}

/// A manifest that is made, committed to, drawn from and opened.
struct Steps;

// The catalogue's file is calls 1 and 2. A barrier is 3, the manifest and `CURRENT` are 4 to 24, the edit 25 to 30, the block
// 31 to 36, a barrier 37, and the opening 38 to 44.
impl Subject for Steps {
    fn calls(&self) -> u8 {
        44
    }

    fn steps_before(&self, call: u8) -> usize {
        if call <= 24 {
            0
        } else if call <= 30 {
            1
        } else if call <= 36 {
            2
        } else if call <= 44 {
            3
        } else {
            4
        }
    }

    fn drive<R: Abort>(&self, rt: &R, alloc: Global, disk: &mut MemDisk) -> Result<usize, Fail> {
        let first = first_edit(rt, alloc)?;
        let second = edit_of(rt, alloc, SECOND)?;
        let done = steps_with_first(alloc, disk, &first, &second)?;
        Ok(done)
    }

    // What was acknowledged is there, and at most one step more; a number that was drawn isn't drawn again.
    fn judge<R: Abort>(
        &self,
        rt: &R,
        alloc: Global,
        disk: &mut MemDisk,
        done: usize,
    ) -> Result<(), Fail> {
        let Some(found) = read_back(alloc, disk)? else {
            assert_eq!(rt; done, 0);
            return Ok(());
        };
        let accepted = found.accepted;
        let next = found.next;
        assert!(rt;
            accepted == 0 && done < 2 || accepted == 1 && done > 0,
            "{done} done, accepted {accepted}"
        );
        assert!(rt;
            next == 64 && done < 3 || next == 128 && done > 1,
            "{done} done, reserved below {next}"
        );
        assert_eq!(rt; found.drawn, next);
        Ok(())
    }
}

#[test]
fn a_failing_call_leaves_the_old_version_or_the_new(rt: HostRuntime) -> Result<(), Fail> {
    sweep(&rt, rt.alloc(), &Steps)
}

fn commit_both(
    rt: &impl Abort,
    alloc: Global,
    disk: &mut MemDisk,
    first: &Edit,
    second: &Edit,
) -> Result<u64, Fail>
    requires first { IsEdit first.now }
    requires next { IfSome first.now.next (λ end. 4 ≤ end) }
    requires second { IsEdit second.now }
{
    assert_absent(rt, disk, manifest_1())?;
    let version = committed(alloc, disk, first, second)?;
    Ok(version.five().accepted)
}

fn accepted_after_a_commit(
    rt: &impl Abort,
    alloc: Global,
    disk: &mut MemDisk,
) -> Result<u64, Fail> {
    let first = first_edit(rt, alloc)?;
    let second = edit_of(rt, alloc, SECOND)?;
    let accepted = commit_both(rt, alloc, disk, &first, &second)?;
    Ok(accepted)
}

#[test]
fn after_a_commit_each_image_says_the_version(rt: HostRuntime) -> Result<(), Fail> {
    let alloc = rt.alloc();
    for pick in 0..4 {
        let mut disk = new_disk(alloc, Vec::new(alloc), pick);
        put(&rt, &mut disk, catalogue_2(), b"")?;
        let accepted = accepted_after_a_commit(&rt, alloc, &mut disk)?;
        assert_eq!(rt; accepted, 1, "pick {pick}");
        disk.power();
        let found = read_back(alloc, &mut disk)?;
        let found = found.expect(&rt, "a manifest");
        assert_eq!(rt; found.accepted, 1, "pick {pick}");
    }
    Ok(())
}

#[test]
fn an_empty_folder_has_no_manifest(rt: HostRuntime) -> Result<(), Fail> {
    let mut disk = new_disk(rt.alloc(), Vec::new(rt.alloc()), 0);
    let opened = folder_reopened(rt.alloc(), &mut disk)?;
    assert!(rt; opened.is_none());
    assert_eq!(rt; disk.calls(), 2, "a barrier, and the length of CURRENT");
    Ok(())
}

// Three calls.
pub(crate) fn put(
    rt: &impl Abort,
    disk: &mut MemDisk,
    name: Name,
    bytes: &[u8],
) -> Result<(), Fail> {
    assert_absent(rt, disk, name)?;
    make_file(disk, name, bytes)?;
    Ok(())
}

struct Damage {
    current: &'static [u8],
    manifest: Option<&'static [u8]>,
    catalogue: bool,
    in_current: bool,
}

pub(crate) const NAMES: &[u8] = b"\x01\0\0\0\x02\x01\x02\0";

const SAYS: &[u8] = b"\x01\0\0\0\x0a\x01\x00\x02\x40\x03\x03\x04\x00\x05\x01\0";

const DAMAGES: [Damage; 12] = [
    // `CURRENT` names no two files.
    Damage {
        current: b"\x01\0\0\0\0\0",
        manifest: Some(SAYS),
        catalogue: true,
        in_current: true,
    },
    Damage {
        current: b"\x01\0\0\0\x01\x01\0",
        manifest: Some(SAYS),
        catalogue: true,
        in_current: true,
    },
    Damage {
        current: b"\x01\0\0\0\x03\x01\x02\x03\0",
        manifest: Some(SAYS),
        catalogue: true,
        in_current: true,
    },
    // Only the last payload is judged.
    Damage {
        current: b"\x01\0\0\0\x02\x01\x02\x01\0\0\0\x01\x01\0",
        manifest: Some(SAYS),
        catalogue: true,
        in_current: true,
    },
    // A file is absent. That comes before a damaged manifest.
    Damage {
        current: NAMES,
        manifest: None,
        catalogue: true,
        in_current: true,
    },
    Damage {
        current: NAMES,
        manifest: Some(SAYS),
        catalogue: false,
        in_current: true,
    },
    Damage {
        current: NAMES,
        manifest: Some(b"\0"),
        catalogue: false,
        in_current: true,
    },
    // Of the numbers only 0 is reserved.
    Damage {
        current: NAMES,
        manifest: Some(b"\x01\0\0\0\x0a\x01\x00\x02\x01\x03\x00\x04\x00\x05\x01\0"),
        catalogue: true,
        in_current: true,
    },
    // No edit; what is no edit; an edit before which none reserved its log; and one after which fewer numbers are reserved.
    Damage {
        current: NAMES,
        manifest: Some(b"\0"),
        catalogue: true,
        in_current: false,
    },
    Damage {
        current: NAMES,
        manifest: Some(b"\x01\0\0\0\x02\x01\x02\0"),
        catalogue: true,
        in_current: false,
    },
    Damage {
        current: NAMES,
        manifest: Some(b"\x01\0\0\0\x02\x01\x01\0"),
        catalogue: true,
        in_current: false,
    },
    Damage {
        current: NAMES,
        manifest: Some(
            b"\x01\0\0\0\x0a\x01\x00\x02\x40\x03\x03\x04\x00\x05\x01\x01\0\0\0\x02\x02\x20\0",
        ),
        catalogue: true,
        in_current: false,
    },
];

fn put_manifest(
    rt: &impl Abort,
    disk: &mut MemDisk,
    bytes: Option<&'static [u8]>,
) -> Result<(), Fail> {
    if let Some(bytes) = bytes {
        put(rt, disk, manifest_1(), bytes)?;
    }
    Ok(())
}

fn put_catalogue(rt: &impl Abort, disk: &mut MemDisk, catalogue: bool) -> Result<(), Fail> {
    if catalogue {
        put(rt, disk, catalogue_2(), b"")?;
    }
    Ok(())
}

fn damaged_folder(rt: &impl Abort, alloc: Global, damage: &Damage) -> Result<MemDisk, Fail> {
    let mut disk = new_disk(alloc, Vec::new(alloc), 0);
    put(rt, &mut disk, current(), damage.current)?;
    put_manifest(rt, &mut disk, damage.manifest)?;
    put_catalogue(rt, &mut disk, damage.catalogue)?;
    Ok(disk)
}

// Whether an opening tells that this file is damaged.
fn is_told(alloc: Global, mut disk: MemDisk, file: Name) -> bool {
    match folder_reopened(alloc, &mut disk) {
        Ok(_) => false,
        Err(error) => error == ManifestError::Damaged(file),
    }
}

fn open_a_damaged_folder(
    rt: &impl Abort,
    alloc: Global,
    damage: &Damage,
    row: usize,
) -> Result<(), Fail> {
    let disk = damaged_folder(rt, alloc, damage)?;
    let want = if damage.in_current {
        current()
    } else {
        manifest_1()
    };
    assert!(rt; is_told(alloc, disk, want), "row {row}");
    Ok(())
}

#[test]
fn a_damaged_folder_is_told_by_its_file(rt: HostRuntime) -> Result<(), Fail> {
    for (row, damage) in DAMAGES.iter().enumerate() {
        open_a_damaged_folder(&rt, rt.alloc(), damage, row)?;
    }
    Ok(())
}

fn made_again(
    rt: &impl Abort,
    alloc: Global,
    disk: &mut MemDisk,
) -> Result<(Manifest, Version), Fail>
    ensures { IfOk result (λ made. EachManifest made.0 made.1 (held disk.new)) }
{
    let first = first_edit(rt, alloc)?;
    assert_absent(rt, disk, manifest_1())?;
    let made = created(alloc, disk, &first)?;
    Ok(made)
}

#[test]
fn a_pointer_without_payloads_is_none_and_is_made_again(rt: HostRuntime) -> Result<(), Fail> {
    let alloc = rt.alloc();
    let mut disk = new_disk(alloc, Vec::new(alloc), 0);
    put(&rt, &mut disk, current(), b"\x01\0\0\0\x02\x01")?;
    put(&rt, &mut disk, catalogue_2(), b"")?;
    let opened = folder_reopened(alloc, &mut disk)?;
    assert!(rt; opened.is_none());
    let before = disk.calls();
    let (_manifest, _version) = made_again(&rt, alloc, &mut disk)?;
    assert_eq!(rt;
        disk.calls().saturating_sub(before),
        21,
        "the absence, a barrier, and nineteen calls"
    );
    let found = folder_reopened(alloc, &mut disk)?;
    assert!(rt; found.is_some());
    Ok(())
}

#[test]
fn an_opening_makes_seven_calls(rt: HostRuntime) -> Result<(), Fail> {
    let alloc = rt.alloc();
    let mut disk = new_disk(alloc, Vec::new(alloc), 0);
    put(&rt, &mut disk, current(), NAMES)?;
    put(&rt, &mut disk, manifest_1(), SAYS)?;
    put(&rt, &mut disk, catalogue_2(), b"")?;
    let before = disk.calls();
    assert_eq!(rt; before, 9);
    let opened = folder_reopened(alloc, &mut disk)?;
    let (manifest, version) = opened.expect(&rt, "a manifest");
    assert_eq!(rt; disk.calls(), 17, "a barrier, and seven calls");
    assert_eq!(rt; manifest.number(), 1);
    assert_eq!(rt; manifest.catalogue(), 2);
    assert_eq!(rt; version.five().log, 3);
    Ok(())
}

/// Asserts that a draw gives this number, by so many device calls.
fn draw(
    rt: &impl Abort,
    alloc: Global,
    disk: &mut MemDisk,
    manifest: &mut Manifest,
    version: &mut Version,
    row: (u64, u64, u64),
) -> Result<(), Fail>
    requires { EachManifest manifest.old version.old (held disk.old) }
    ensures { OnOk result (EachManifest manifest.new version.new (held disk.new)) }
{
    let (count, first, calls) = row;
    let before = disk.calls();
    let drawn = manifest.draw(alloc, disk, version, count)?;
    assert_eq!(rt; drawn, first);
    assert_eq!(rt;
        disk.calls().saturating_sub(before),
        calls,
        "{count} numbers"
    );
    Ok(())
}

#[test]
fn a_draw_reserves_block_by_block(rt: HostRuntime) -> Result<(), Fail> {
    let alloc = rt.alloc();
    let mut disk = new_disk(alloc, Vec::new(alloc), 0);
    let (mut manifest, mut version) = made_again(&rt, alloc, &mut disk)?;
    assert_eq!(rt;
        disk.calls(),
        23,
        "the absence, a barrier, and twenty-one calls"
    );
    // 4 to 63 stand reserved.
    draw(
        &rt,
        alloc,
        &mut disk,
        &mut manifest,
        &mut version,
        (0, 4, 0),
    )?;
    draw(
        &rt,
        alloc,
        &mut disk,
        &mut manifest,
        &mut version,
        (60, 4, 0),
    )?;
    draw(
        &rt,
        alloc,
        &mut disk,
        &mut manifest,
        &mut version,
        (1, 64, 6),
    )?;
    draw(
        &rt,
        alloc,
        &mut disk,
        &mut manifest,
        &mut version,
        (127, 65, 6),
    )?;
    draw(
        &rt,
        alloc,
        &mut disk,
        &mut manifest,
        &mut version,
        (65, 192, 12),
    )?;
    Ok(())
}

/// The numbers below 2^62 - 100 are reserved: one block more ends below 2^62.
const NEARLY_ALL: &[u8] =
    b"\x01\0\0\0\x12\x01\x00\x02\x9c\xff\xff\xff\xff\xff\xff\xff\x3f\x03\x03\x04\x00\x05\x01\0";

// What is reserved after a draw that was refused.
fn draw_too_many(alloc: Global, disk: &mut MemDisk) -> Result<Option<u64>, Fail> {
    let Some((mut manifest, mut version)) = folder_reopened(alloc, disk)? else {
        return Ok(None);
    };
    match manifest.draw(alloc, disk, &mut version, 1000) {
        Err(CommitError::Spent) => Ok(Some(version.five().next)),
        _ => Ok(None),
    }
}

#[test]
fn a_refused_draw_reserves_the_last_whole_block(rt: HostRuntime) -> Result<(), Fail> {
    let alloc = rt.alloc();
    let mut disk = new_disk(alloc, Vec::new(alloc), 0);
    put(&rt, &mut disk, current(), NAMES)?;
    put(&rt, &mut disk, manifest_1(), NEARLY_ALL)?;
    put(&rt, &mut disk, catalogue_2(), b"")?;
    let reserved = draw_too_many(alloc, &mut disk)?;
    assert_eq!(rt; reserved, Some((1 << 62) - 36));
    // The next opening draws from there, and no block is left.
    let again = draw_too_many(alloc, &mut disk)?;
    assert_eq!(rt; again, Some((1 << 62) - 36));
    let calls = disk.calls();
    assert_eq!(rt; calls, 9 + 8 + 6 + 8, "one block is reserved by six calls");
    Ok(())
}
