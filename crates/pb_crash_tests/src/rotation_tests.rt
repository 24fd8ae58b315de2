ghost use Rattle.std.specs.Prelude.{IfOk};
ghost use Rattle.pb_edit.specs.Grammar.{IsEdit};

use super::manifest_tests::{FIRST, NAMES, SECOND, edit_of, put};
use super::{committed_behind, drawn_and_committed, folder_reopened, new_disk};
use pb_devices::Disk;
use pb_edit::Edit;
use pb_manifest::CommitError;
use pb_mem::MemDisk;
use pb_names::{FileKind, current, file};
use pb_version::Broken;
use std::alloc::Global;
use std::process::Abort;
use std::test::Fail;

/// The first edit with the numbers below 8,192 reserved.
const WIDE: &[u8] = b"\x01\x00\x02\x80\x40\x03\x03\x04\x00\x05\x01";

/// The first edit with the numbers below 2^62 - 36 reserved: no block more ends below 2^62.
const ALL: &[u8] = b"\x01\x00\x02\xdc\xff\xff\xff\xff\xff\xff\xff\x3f\x03\x03\x04\x00\x05\x01";

/// A table goes that isn't there.
const BROKEN: &[u8] = b"\x06\x00\x09";

/// A manifest of fewer bytes isn't rotated.
pub(crate) const LONG: usize = 1_048_576;

// A manifest of one payload of less than 16 MiB, and so many bytes.
fn manifest_of(alloc: Global, payload: &[u8], len: usize) -> Result<Vec<u8>, Fail> {
    let mut bytes = Vec::new(alloc);
    let n = payload.len();
    let high = (n / 65_536 % 256) as u8;
    let mid = (n / 256 % 256) as u8;
    let low = (n % 256) as u8;
    bytes.extend_from_slice([1, 0, high, mid, low].as_slice())?;
    bytes.extend_from_slice(payload)?;
    bytes.resize(len, 0)?;
    Ok(bytes)
}

// A folder whose manifest 1 has this payload and this length: nine calls.
pub(crate) fn folder_of(
    rt: &impl Abort,
    alloc: Global,
    payload: &[u8],
    len: usize,
    fail: Vec<u64>,
    pick: u64,
) -> Result<MemDisk, Fail> {
    let mut disk = new_disk(alloc, fail, pick);
    put(rt, &mut disk, current(), NAMES)?;
    let bytes = manifest_of(alloc, payload, len)?;
    put(rt, &mut disk, file(FileKind::Manifest, 1), bytes.as_slice())?;
    put(rt, &mut disk, file(FileKind::Catalogue, 2), b"")?;
    Ok(disk)
}

/// A first payload, the file's length, the numbers that are drawn first; and then the calls of the commit, the manifest behind it and
/// the end of the reserved numbers.
struct Row {
    payload: &'static [u8],
    len: usize,
    drawn: u64,
    calls: u64,
    manifest: u64,
    next: u64,
}

const ROWS: [Row; 5] = [
    Row {
        payload: FIRST,
        len: LONG - 1,
        drawn: 1,
        calls: 6 + 6,
        manifest: 1,
        next: 128,
    },
    Row {
        payload: FIRST,
        len: LONG,
        drawn: 1,
        calls: 6 + 23,
        manifest: 65,
        next: 128,
    },
    // The number to draw is the end of the block.
    Row {
        payload: FIRST,
        len: LONG,
        drawn: 0,
        calls: 29,
        manifest: 64,
        next: 128,
    },
    Row {
        payload: FIRST,
        len: LONG,
        drawn: 64,
        calls: 6 + 29,
        manifest: 128,
        next: 192,
    },
    // No number is left.
    Row {
        payload: ALL,
        len: LONG,
        drawn: 0,
        calls: 6,
        manifest: 1,
        next: (1 << 62) - 36,
    },
];

/// A barrier, an opening of 16 pieces, and the file of the number that is drawn next.
const BEFORE: u64 = 9 + 1 + 22 + 1;

fn commit_row(rt: &impl Abort, alloc: Global, row: &Row, at: usize) -> Result<(), Fail> {
    let mut disk = folder_of(rt, alloc, row.payload, row.len, Vec::new(alloc), 0)?;
    let edit = edit_of(rt, alloc, SECOND)?;
    let found = committed_behind(alloc, &mut disk, row.drawn, &edit)?;
    let (manifest, version) = found.expect(rt, "a manifest");
    assert_eq!(rt; disk.calls().saturating_sub(BEFORE), row.calls, "row {at}");
    assert_eq!(rt; manifest.number(), row.manifest, "row {at}");
    assert_eq!(rt; version.five().next, row.next, "row {at}");
    assert_eq!(rt; version.five().accepted, 1, "row {at}");
    Ok(())
}

#[test]
fn a_long_manifest_is_rotated(rt: HostRuntime) -> Result<(), Fail> {
    for (at, row) in ROWS.iter().enumerate() {
        commit_row(&rt, rt.alloc(), row, at)?;
    }
    Ok(())
}

// A table of level 0: its kind, level, number, rank, size and two ends.
fn put_table(out: &mut Vec<u8>, number: usize, len: usize) -> Result<(), Fail> {
    let low = (number % 128 + 128) as u8;
    let high = (number / 128 % 128) as u8;
    out.extend_from_slice([7, 0, low, high, low, high, 1].as_slice())?;
    for letter in [b'a', b'b'] {
        out.push((len % 128 + 128) as u8)?;
        out.push((len / 128 % 128) as u8)?;
        let end = out.len().saturating_add(len);
        out.resize(end, letter)?;
    }
    Ok(())
}

/// A first edit with tables: so many with ends of 1,000 bytes, and one with ends of 900, have 400,000 bytes.
const TABLES: usize = 198;

fn long_first(alloc: Global) -> Result<Vec<u8>, Fail> {
    let mut out = Vec::new(alloc);
    out.extend_from_slice(WIDE)?;
    for at in 0..TABLES {
        put_table(&mut out, at.saturating_add(200), 1000)?;
    }
    put_table(&mut out, 398, 900)?;
    Ok(out)
}

// The manifest behind a commit, where the file has this length.
fn manifest_behind(
    rt: &impl Abort,
    alloc: Global,
    payload: &[u8],
    len: usize,
) -> Result<u64, Fail> {
    let mut disk = folder_of(rt, alloc, payload, len, Vec::new(alloc), 0)?;
    let edit = edit_of(rt, alloc, SECOND)?;
    let found = committed_behind(alloc, &mut disk, 0, &edit)?;
    let (manifest, _version) = found.expect(rt, "a manifest");
    Ok(manifest.number())
}

#[test]
fn a_manifest_is_rotated_at_four_times_its_first_payload(rt: HostRuntime) -> Result<(), Fail> {
    let first = long_first(rt.alloc())?;
    assert_eq!(rt; first.len(), 400_000);
    let below = manifest_behind(&rt, rt.alloc(), first.as_slice(), 1_599_999)?;
    assert_eq!(rt; below, 1);
    let at = manifest_behind(&rt, rt.alloc(), first.as_slice(), 1_600_000)?;
    assert_eq!(rt; at, 8192);
    Ok(())
}

#[test]
fn a_broken_edit_is_told_before_a_rotation(rt: HostRuntime) -> Result<(), Fail> {
    let alloc = rt.alloc();
    let mut disk = folder_of(&rt, alloc, WIDE, LONG, Vec::new(alloc), 0)?;
    let edit = edit_of(&rt, alloc, BROKEN)?;
    let answer = committed_behind(alloc, &mut disk, 0, &edit);
    assert!(rt; matches!(answer, Err(CommitError::Broken(Broken::V1))));
    let calls = disk.calls();
    assert_eq!(rt; calls, BEFORE);
    Ok(())
}

// The manifest behind a draw.
fn manifest_drawn_from(alloc: Global, disk: &mut MemDisk, count: u64) -> Result<Option<u64>, Fail> {
    let Some((mut manifest, mut version)) = folder_reopened(alloc, disk)? else {
        return Ok(None);
    };
    manifest.draw(alloc, disk, &mut version, count)?;
    Ok(Some(manifest.number()))
}

#[test]
fn a_draw_rotates_nothing(rt: HostRuntime) -> Result<(), Fail> {
    let alloc = rt.alloc();
    let mut disk = folder_of(&rt, alloc, FIRST, LONG, Vec::new(alloc), 0)?;
    let manifest = manifest_drawn_from(alloc, &mut disk, 65)?;
    assert_eq!(rt; manifest, Some(1));
    let calls = disk.calls();
    assert_eq!(rt; calls, 9 + 1 + 22 + 12, "two blocks");
    Ok(())
}

// The device calls of the same commit behind a rotation.
fn calls_of_the_second(
    rt: &impl Abort,
    alloc: Global,
    disk: &mut MemDisk,
    edit: &Edit,
) -> Result<u64, Fail>
    requires { IsEdit edit.now }
{
    let found = committed_behind(alloc, disk, 0, edit)?;
    let (mut manifest, mut version) = found.expect(rt, "a manifest");
    assert_eq!(rt; manifest.number(), 64);
    let before = disk.calls();
    assert!(rt; drawn_and_committed(alloc, disk, &mut manifest, &mut version, 0, edit)?);
    assert_eq!(rt; manifest.number(), 64);
    Ok(disk.calls().saturating_sub(before))
}

#[test]
fn the_commit_behind_a_rotation_makes_six_calls(rt: HostRuntime) -> Result<(), Fail> {
    let alloc = rt.alloc();
    let mut disk = folder_of(&rt, alloc, FIRST, LONG, Vec::new(alloc), 0)?;
    let edit = edit_of(&rt, alloc, SECOND)?;
    let calls = calls_of_the_second(&rt, alloc, &mut disk, &edit)?;
    assert_eq!(rt; calls, 1 + 6, "the name, and the commit");
    Ok(())
}
