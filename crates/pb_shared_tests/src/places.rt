// Where the bytes of numbers are read, and how far their objects have come.
use super::catalogues::catalogue_of;
use super::files::{new_disk, put, table};
use pb_devices::{Bucket, Disk};
use pb_keys::Bytes;
use pb_marker_world::Stage;
use pb_mem::{MemBucket, MemDisk};
use pb_names::{ObjectId, object};
use pb_provider::{Provider, ReadError};
use pb_version::Version;
use std::alloc::{AllocError, Global};
use std::process::Abort;
use std::test::Fail;

/// The version before the first edit.
pub(crate) fn no_version(alloc: Global) -> Version {
    Version::empty(alloc)
}

/// The provider of store 1 that opens with these payloads of a catalogue.
pub(crate) fn provider_of(
    rt: &impl Abort,
    alloc: Global,
    payloads: &[&[u8]],
    version: &Version,
) -> Result<Provider, Fail> {
    let catalog = catalogue_of(rt, alloc, payloads)?;
    assert_eq!(rt; catalog.id(), 1);
    let provider = Provider::new(alloc, 1, catalog, version)?;
    Ok(provider)
}

/// The edits of a store with the tables 4 and 8, and then with a virtual table 6 over 4 in place of 4.
const EDITS: [&[u8]; 3] = [
    b"\x01\0\x02\x40\x03\x03\x04\0\x05\x01",
    b"\x01\x02\x03\x05\x04\x02\x07\0\x04\x04\x08\x01a\x01b\x07\0\x08\x04\x08\x01c\x01d",
    b"\x01\x03\x06\0\x04\x08\0\x06\x04\x04\x01a\x02a!\0\0\x09\x04\x08",
];

fn version(alloc: Global) -> Result<Version, Fail> {
    let mut payloads = Vec::new(alloc);
    for edit in &EDITS {
        payloads.push(Bytes::new(alloc, edit)?)?;
    }
    let found = Version::of_payloads(alloc, &payloads)?;
    let version = found.ok_or("no version")?;
    Ok(version)
}

/// The objects 1/4, 2/9 and 1/6 stand under 4, 8 and 6.
const SHARED: [&[u8]; 4] = [
    b"\x01\x01",
    b"\x02\x04\x01\x04",
    b"\x02\x08\x02\x09",
    b"\x02\x06\x01\x06",
];

#[test]
fn a_stored_entry_is_held_when_the_store_is_opened(rt: HostRuntime) -> Result<(), Fail> {
    let alloc = rt.alloc();
    let version = version(alloc)?;
    let provider = provider_of(&rt, alloc, &SHARED, &version)?;
    assert_eq!(rt; provider.id(), 1);
    assert_eq!(rt; provider.len(), 3);
    assert!(rt; provider.at(2).is_some() && provider.at(3).is_none());
    for (number, stage) in [
        (4, Some(Stage::Held)),
        (8, Some(Stage::Held)),
        // A virtual table has no bytes of its own.
        (6, Some(Stage::Loose)),
        (3, None),
        (9, None),
    ] {
        assert!(rt; provider.stage(number) == stage, "{number}");
        assert_eq!(rt;
            provider.entry(number).is_some(),
            stage.is_some(),
            "{number}"
        );
    }
    Ok(())
}

/// Bytes as a read finds them from a place on.
#[derive(Drop)]
struct Piece {
    number: u64,
    at: u64,
    len: usize,
    bytes: &'static [u8],
}

/// Of the file `7.tbl`, and of the object under 8.
const PIECES: [Piece; 8] = [
    Piece {
        number: 7,
        at: 0,
        len: 4,
        bytes: b"file",
    },
    Piece {
        number: 7,
        at: 1,
        len: 2,
        bytes: b"il",
    },
    Piece {
        number: 7,
        at: 2,
        len: 8,
        bytes: b"le",
    },
    Piece {
        number: 7,
        at: 4,
        len: 8,
        bytes: b"",
    },
    Piece {
        number: 8,
        at: 0,
        len: 6,
        bytes: b"object",
    },
    Piece {
        number: 8,
        at: 3,
        len: 8,
        bytes: b"ect",
    },
    Piece {
        number: 8,
        at: 5,
        len: 0,
        bytes: b"",
    },
    Piece {
        number: 8,
        at: 7,
        len: 8,
        bytes: b"",
    },
];

/// A disk with the file, and a bucket with the object of store 2. Of each the call of this number fails; none for 0.
fn disk_with_file(rt: &impl Abort, alloc: Global, fail: bool) -> Result<MemDisk, Fail> {
    let mut disk = new_disk(alloc);
    put(rt, &mut disk, table(7), b"file")?;
    let mut calls = Vec::new(alloc);
    if fail {
        calls.push(disk.calls().saturating_add(1))?;
    }
    Ok(disk.again(calls, 0))
}

fn bucket_with_object(alloc: Global, fail: bool) -> Result<MemBucket, Fail> {
    let mut calls = Vec::new(alloc);
    if fail {
        calls.push(2)?;
    }
    let mut bucket = MemBucket::new(alloc, calls);
    bucket.put("obj/2/9", b"object")?;
    Ok(bucket)
}

fn read_pieces(
    rt: &impl Abort,
    provider: &Provider,
    disk: &mut MemDisk,
    bucket: &mut MemBucket,
) -> Result<(), Fail> {
    for piece in &PIECES {
        read_piece(rt, provider, disk, bucket, piece)?;
    }
    Ok(())
}

fn read_piece(
    rt: &impl Abort,
    provider: &Provider,
    disk: &mut MemDisk,
    bucket: &mut MemBucket,
    piece: &Piece,
) -> Result<(), Fail> {
    let mut into = [0; 8];
    let into = into.get_mut(..piece.len).ok_or("no room")?;
    let number = piece.number;
    let count = provider.read(disk, bucket, number, piece.at, into)?;
    assert_eq!(rt;
        into.get(..count),
        Some(piece.bytes),
        "{number} from {}",
        piece.at
    );
    Ok(())
}

#[test]
fn bytes_are_read_of_the_file_or_of_the_object(rt: HostRuntime) -> Result<(), Fail> {
    let alloc = rt.alloc();
    let version = version(alloc)?;
    let provider = provider_of(&rt, alloc, &SHARED, &version)?;
    let mut disk = disk_with_file(&rt, alloc, false)?;
    let mut bucket = bucket_with_object(alloc, false)?;
    let before = disk.calls();
    read_pieces(&rt, &provider, &mut disk, &mut bucket)?;
    assert_eq!(rt;
        disk.calls().saturating_sub(before),
        4,
        "a call a piece of the file"
    );
    Ok(())
}

fn failed_read(
    provider: &Provider,
    disk: &mut MemDisk,
    bucket: &mut MemBucket,
    number: u64,
) -> Option<ReadError> {
    let mut into = [0; 8];
    provider.read(disk, bucket, number, 0, &mut into).err()
}

#[test]
fn a_read_tells_which_device_failed_and_what_is_missing(rt: HostRuntime) -> Result<(), Fail> {
    let alloc = rt.alloc();
    let version = version(alloc)?;
    let provider = provider_of(&rt, alloc, &SHARED, &version)?;
    let mut disk = disk_with_file(&rt, alloc, true)?;
    let mut bucket = bucket_with_object(alloc, true)?;
    let missing = object(&ObjectId {
        creator: 1,
        number: 4,
    });
    for (number, error) in [
        (8, Some(ReadError::Bucket)),
        (8, None),
        (4, Some(ReadError::Missing(missing))),
        (7, Some(ReadError::Disk)),
        (7, None),
    ] {
        let found = failed_read(&provider, &mut disk, &mut bucket, number);
        assert!(rt; found == error, "{number}");
    }
    Ok(())
}
