use crate::{Fault, File, Pairs, stands};
use pb_keys::{Bytes, Key, KeyError};
use pb_names::Name;
use std::alloc::{AllocError, Global};
use std::test::Fail;

// An open gate, the length 2, the manifest 1 and the catalogue 2, and the last gate: docs/FORMATS.md, "Current pointer".
pub(crate) const CURRENT: &[u8] = b"\x01\0\0\0\x02\x01\x02\0";
// Accepted 0, next 64, log 3, flushed 0, format 1.
const NEW: &[u8] = b"\x01\0\0\0\x0a\x01\0\x02\x40\x03\x03\x04\0\x05\x01\0";
// And then accepted 2, log 5, flushed 2, and on level 0 the table 4 of rank 4 and 8 bytes from `a` to `b`.
pub(crate) const FLUSHED: &[u8] =
    b"\x01\0\0\0\x0a\x01\0\x02\x40\x03\x03\x04\0\x05\x01\x01\0\0\0\x0f\x01\x02\x03\x05\x04\x02\x07\0\x04\x04\x08\x01a\x01b\0";
// The id 1.
const CATALOGUE: &[u8] = b"\x01\0\0\0\x02\x01\x01\0";
// The row `a` to `1`.
pub(crate) const TABLE: &[u8] = b"\x01\0\x01\x01a\x01\x011";

pub(crate) fn add(
    alloc: Global,
    files: &mut Vec<File>,
    name: &str,
    bytes: &[u8],
) -> Result<(), AllocError> {
    let name = Bytes::new(alloc, name.as_bytes())?;
    let bytes = Bytes::new(alloc, bytes)?;
    files.push(File { name, bytes })?;
    Ok(())
}

// A store without tables, with this log.
fn store_with(alloc: Global, manifest: &[u8], log: &[u8]) -> Result<Vec<File>, AllocError> {
    let mut files = Vec::new(alloc);
    add(alloc, &mut files, "CURRENT", CURRENT)?;
    add(alloc, &mut files, "1.man", manifest)?;
    add(alloc, &mut files, "2.cat", CATALOGUE)?;
    add(alloc, &mut files, "3.log", log)?;
    Ok(files)
}

// A store after a flush, with these bytes in the file of this name, or without it.
pub(crate) fn flushed_but(
    alloc: Global,
    name: &str,
    bytes: Option<&[u8]>,
) -> Result<Vec<File>, AllocError> {
    let mut files = Vec::new(alloc);
    for (own, held) in [
        ("CURRENT", CURRENT),
        ("1.man", FLUSHED),
        ("2.cat", CATALOGUE),
        ("4.tbl", TABLE),
        ("5.log", b"\0".as_slice()),
    ] {
        if own != name {
            add(alloc, &mut files, own, held)?;
        }
    }
    if let Some(bytes) = bytes {
        add(alloc, &mut files, name, bytes)?;
    }
    Ok(files)
}

fn fault_of(alloc: Global, files: &[File], id: u64) -> Result<Option<Name>, AllocError> {
    match stands(alloc, files, &[], id) {
        Ok(_found) => Ok(None),
        Err(fault) => damaged(fault),
    }
}

pub(crate) fn damaged(fault: Fault) -> Result<Option<Name>, AllocError> {
    match fault {
        Fault::Damaged(file) => Ok(Some(file)),
        Fault::NoMemory => Err(AllocError),
    }
}

pub(crate) fn value_of<'a>(
    alloc: Global,
    pairs: &'a Pairs,
    key: &[u8],
) -> Result<&'a [u8], KeyError> {
    let key = Key::new(alloc, key)?;
    match pairs.get(&key) {
        Some(value) => Ok(value.as_slice()),
        None => Ok(b"-".as_slice()),
    }
}

#[test]
fn a_folder_without_a_pointer_stands_for_nothing_done(rt: HostRuntime) -> Result<(), Fail> {
    let mut files = Vec::new(rt.alloc());
    let (count, pairs) = stands(rt.alloc(), &files, &[], 1)?;
    assert_eq!(rt; count, 0);
    assert_eq!(rt; pairs.len(), 0);
    // The gate of the one payload is closed.
    add(rt.alloc(), &mut files, "CURRENT", b"\0\0\0\0\x02\x01\x02\0")?;
    let (count, pairs) = stands(rt.alloc(), &files, &[], 1)?;
    assert_eq!(rt; count, 0);
    assert_eq!(rt; pairs.len(), 0);
    Ok(())
}

#[test]
fn a_new_store_stands_for_what_its_log_says(rt: HostRuntime) -> Result<(), Fail> {
    for (log, number, len, a, b) in [
        (b"\0".as_slice(), 0, 0, b"-".as_slice(), b"-".as_slice()),
        // A set of `a` to `1`.
        (b"\x01\0\0\0\x06\x01\x01\x01a\x011\0", 1, 1, b"1", b"-"),
        // And at count 4 a set of `b` to `2`, whose gate is closed.
        (
            b"\x01\0\0\0\x06\x01\x01\x01a\x011\0\0\0\0\x06\x04\x01\x01b\x012\0",
            1,
            1,
            b"1",
            b"-",
        ),
        // And open.
        (
            b"\x01\0\0\0\x06\x01\x01\x01a\x011\x01\0\0\0\x06\x04\x01\x01b\x012\0",
            4,
            2,
            b"1",
            b"2",
        ),
        // And then the span from `a` to `b` is deleted.
        (
            b"\x01\0\0\0\x06\x01\x01\x01a\x011\x01\0\0\0\x06\x04\x01\x01b\x012\x01\0\0\0\x06\x05\x03\x01a\x01b\0",
            5,
            1,
            b"-",
            b"2",
        ),
        // And then `b`.
        (
            b"\x01\0\0\0\x06\x01\x01\x01a\x011\x01\0\0\0\x06\x04\x01\x01b\x012\x01\0\0\0\x04\x05\x02\x01b\0",
            5,
            1,
            b"1",
            b"-",
        ),
    ] {
        let files = store_with(rt.alloc(), NEW, log)?;
        let (count, pairs) = stands(rt.alloc(), &files, &[], 1)?;
        assert_eq!(rt; count, number, "{log:?}");
        assert_eq!(rt; pairs.len(), len, "{log:?}");
        assert_eq!(rt; value_of(rt.alloc(), &pairs, b"a")?, a, "{log:?}");
        assert_eq!(rt; value_of(rt.alloc(), &pairs, b"b")?, b, "{log:?}");
    }
    Ok(())
}

#[test]
fn a_flush_puts_what_the_log_said_in_a_table(rt: HostRuntime) -> Result<(), Fail> {
    let files = flushed_but(rt.alloc(), "", None)?;
    let (count, pairs) = stands(rt.alloc(), &files, &[], 1)?;
    assert_eq!(rt; count, 2);
    assert_eq!(rt; pairs.len(), 1);
    assert_eq!(rt; value_of(rt.alloc(), &pairs, b"a")?, b"1".as_slice());
    // The log goes on behind the table's count, and sets `a` to `2`.
    let files = flushed_but(
        rt.alloc(),
        "5.log",
        Some(b"\x01\0\0\0\x06\x03\x01\x01a\x012\0"),
    )?;
    let (count, pairs) = stands(rt.alloc(), &files, &[], 1)?;
    assert_eq!(rt; count, 3);
    assert_eq!(rt; value_of(rt.alloc(), &pairs, b"a")?, b"2".as_slice());
    Ok(())
}

#[test]
fn the_table_of_the_higher_rank_counts(rt: HostRuntime) -> Result<(), Fail> {
    // Two tables from `a` to `c`: 4 of rank 4 with `a` to `1` and `b` to `1`, and another with `a` to `2`.
    for (rank, a) in [(3, b"1".as_slice()), (5, b"2".as_slice())] {
        let mut manifest = Vec::from_slice(
            rt.alloc(),
            b"\x01\0\0\0\x0a\x01\0\x02\x40\x03\x03\x04\0\x05\x01\x01\0\0\0\x14\x01\x02\x07\0\x04\x04\x0d\x01a\x01c\x07\0\x06",
        )?;
        manifest.push(rank)?;
        manifest.extend_from_slice(b"\x08\x01a\x01c\0")?;
        let mut files = store_with(rt.alloc(), &manifest, b"\0")?;
        add(
            rt.alloc(),
            &mut files,
            "4.tbl",
            b"\x01\0\x02\x01a\x01\x011\x01b\x01\x011",
        )?;
        add(rt.alloc(), &mut files, "6.tbl", b"\x01\0\x01\x01a\x01\x012")?;
        let (count, pairs) = stands(rt.alloc(), &files, &[], 1)?;
        assert_eq!(rt; count, 2);
        assert_eq!(rt; pairs.len(), 2);
        assert_eq!(rt; value_of(rt.alloc(), &pairs, b"a")?, a, "rank {rank}");
        assert_eq!(rt; value_of(rt.alloc(), &pairs, b"b")?, b"1".as_slice());
    }
    Ok(())
}

#[test]
fn a_store_of_another_id_is_none(rt: HostRuntime) -> Result<(), Fail> {
    let files = flushed_but(rt.alloc(), "", None)?;
    for id in [0, 2, 129, u64::MAX] {
        let fault = fault_of(rt.alloc(), &files, id)?.ok_or("it stands for something")?;
        assert_eq!(rt; fault.as_str(), "2.cat", "id {id}");
    }
    Ok(())
}

#[test]
fn an_absent_file_is_at_fault(rt: HostRuntime) -> Result<(), Fail> {
    for (absent, at_fault) in [
        ("1.man", "CURRENT"),
        ("2.cat", "CURRENT"),
        ("4.tbl", "4.tbl"),
        ("5.log", "5.log"),
    ] {
        let files = flushed_but(rt.alloc(), absent, None)?;
        let fault = fault_of(rt.alloc(), &files, 1)?.ok_or(absent)?;
        assert_eq!(rt; fault.as_str(), at_fault);
    }
    Ok(())
}

#[test]
fn a_pointer_off_its_form_is_at_fault(rt: HostRuntime) -> Result<(), Fail> {
    for (bytes, what) in [
        (b"\x01\0\0\0\x03\x01\x02\0\0".as_slice(), "a byte behind it"),
        (b"\x01\0\0\0\x01\x01\0".as_slice(), "one number"),
        (b"\x01\0\0\0\0\0".as_slice(), "an empty payload"),
        (
            b"\x01\0\0\0\x03\x81\0\x02\0".as_slice(),
            "a longer spelling",
        ),
        (
            b"\x01\0\0\0\x02\x03\x02\0".as_slice(),
            "a manifest that isn't there",
        ),
        (
            b"\x01\0\0\0\x02\x01\x02\x01\0\0\0\x01\x01\0".as_slice(),
            "one number, and a pointer before it",
        ),
    ] {
        let files = flushed_but(rt.alloc(), "CURRENT", Some(bytes))?;
        let fault = fault_of(rt.alloc(), &files, 1)?.ok_or(what)?;
        assert_eq!(rt; fault.as_str(), "CURRENT", "{what}");
    }
    Ok(())
}

#[test]
fn a_manifest_of_a_number_that_is_not_reserved_is_at_fault(rt: HostRuntime) -> Result<(), Fail> {
    for (number, name, good) in [
        (63, "63.man", true),
        (64, "64.man", false),
        (65, "65.man", false),
    ] {
        let mut files = Vec::new(rt.alloc());
        add(
            rt.alloc(),
            &mut files,
            "CURRENT",
            &[1, 0, 0, 0, 2, number, 2, 0],
        )?;
        add(rt.alloc(), &mut files, name, NEW)?;
        add(rt.alloc(), &mut files, "2.cat", CATALOGUE)?;
        add(rt.alloc(), &mut files, "3.log", b"\0")?;
        match fault_of(rt.alloc(), &files, 1)? {
            Some(fault) => {
                assert!(rt; !good, "manifest {number}");
                assert_eq!(rt; fault.as_str(), "CURRENT", "manifest {number}");
            }
            None => assert!(rt; good, "manifest {number}"),
        }
    }
    Ok(())
}

#[test]
fn a_manifest_off_its_rules_is_at_fault(rt: HostRuntime) -> Result<(), Fail> {
    for (bytes, what) in [
        (b"\x01\0\0\0\x0a".as_slice(), "cut to five bytes"),
        (b"\0".as_slice(), "no edit"),
        (b"\x01\0\0\0\0\0".as_slice(), "an edit without an item"),
        (
            b"\x01\0\0\0\x0a\x01\0\x02\x40\x03\x03\x04\0\x05\x02\0".as_slice(),
            "an unknown format",
        ),
        (
            b"\x01\0\0\0\x08\x01\0\x02\x40\x03\x03\x04\0\0".as_slice(),
            "no format",
        ),
        (
            b"\x01\0\0\0\x0a\x01\0\x02\x40\x03\x03\x04\x01\x05\x01\0".as_slice(),
            "flushed above accepted",
        ),
        (
            b"\x01\0\0\0\x0a\x01\0\x02\x40\x03\x40\x04\0\x05\x01\0".as_slice(),
            "a log that isn't reserved",
        ),
        (
            b"\x01\0\0\0\x0a\x01\0\x02\x40\x03\x03\x04\0\x05\x01\x01\0\0\0\x02\x02\x3f\0".as_slice(),
            "fewer reserved numbers",
        ),
        (
            b"\x01\0\0\0\x0a\x01\0\x02\x40\x03\x03\x04\0\x05\x01\x01\0\0\0\x03\x06\0\x04\0".as_slice(),
            "a deleted table that isn't there",
        ),
    ] {
        let files = flushed_but(rt.alloc(), "1.man", Some(bytes))?;
        let fault = fault_of(rt.alloc(), &files, 1)?.ok_or(what)?;
        assert_eq!(rt; fault.as_str(), "1.man", "{what}");
    }
    Ok(())
}

#[test]
fn a_catalogue_with_more_than_the_id_is_at_fault(rt: HostRuntime) -> Result<(), Fail> {
    for (bytes, what) in [
        (b"\0".as_slice(), "no payload"),
        (b"\x01\0\0\0\x01\x01\0".as_slice(), "no id"),
        (
            b"\x01\0\0\0\x03\x01\x01\0\0".as_slice(),
            "a byte behind the id",
        ),
        (
            b"\x01\0\0\0\x03\x01\x81\0\0".as_slice(),
            "a longer spelling",
        ),
        (b"\x01\0\0\0\x02\x04\x01\0".as_slice(), "another kind"),
        (
            b"\x01\0\0\0\x02\x01\x01\x01\0\0\0\x02\x01\x01\0".as_slice(),
            "the id twice",
        ),
        (
            b"\x01\0\0\0\x02\x01\x01\x01\0\0\0\x04\x02\x05\x01\x05\0".as_slice(),
            "an object",
        ),
    ] {
        let files = flushed_but(rt.alloc(), "2.cat", Some(bytes))?;
        let fault = fault_of(rt.alloc(), &files, 1)?.ok_or(what)?;
        assert_eq!(rt; fault.as_str(), "2.cat", "{what}");
    }
    Ok(())
}

#[test]
fn a_table_off_its_form_is_at_fault(rt: HostRuntime) -> Result<(), Fail> {
    for (bytes, what) in [
        (b"".as_slice(), "no byte"),
        (b"\x01\0\x01\x01a\0".as_slice(), "fewer bytes than are kept"),
        (
            b"\x01\0\x01\x01a\x01\x0211".as_slice(),
            "more bytes than are kept",
        ),
        (b"\x02\0\x01\x01a\x01\x011".as_slice(), "an unknown format"),
        (
            b"\x01\0\x01\x01a\0\x011".as_slice(),
            "bytes behind the rows",
        ),
        (b"\x01\0\x01\x01@\x01\x011".as_slice(), "a key that is none"),
        (
            b"\x01\0\x02\x01a\0\x01a".as_slice(),
            "a row that is cut short",
        ),
        (b"\x01\x01\x01b\x02aa\0".as_slice(), "a span that falls"),
    ] {
        let files = flushed_but(rt.alloc(), "4.tbl", Some(bytes))?;
        let fault = fault_of(rt.alloc(), &files, 1)?.ok_or(what)?;
        assert_eq!(rt; fault.as_str(), "4.tbl", "{what}");
    }
    Ok(())
}

#[test]
fn a_table_of_another_size_is_at_fault(rt: HostRuntime) -> Result<(), Fail> {
    for (size, good) in [(7, false), (8, true), (9, false)] {
        let mut manifest = Vec::from_slice(rt.alloc(), FLUSHED)?;
        manifest[30] = size;
        let files = flushed_but(rt.alloc(), "1.man", Some(&manifest))?;
        let fault = fault_of(rt.alloc(), &files, 1)?;
        assert_eq!(rt; fault.is_none(), good, "size {size}");
    }
    Ok(())
}

#[test]
fn a_log_off_its_rules_is_at_fault(rt: HostRuntime) -> Result<(), Fail> {
    for (bytes, what) in [
        (
            b"\x01\0\0\0\x06\x02\x01\x01a\x012\0".as_slice(),
            "a count at flushed",
        ),
        (
            b"\x01\0\0\0\x06\x01\x01\x01a\x012\0".as_slice(),
            "a count below flushed",
        ),
        (
            b"\x01\0\0\0\x06\x03\x01\x01a\x012\x01\0\0\0\x06\x03\x01\x01a\x013\0".as_slice(),
            "counts that don't rise",
        ),
        (
            b"\x01\0\0\0\x06\x04\x01\x01a\x012\x01\0\0\0\x06\x03\x01\x01a\x013\0".as_slice(),
            "counts that fall",
        ),
        (b"\x01\0\0\0\0\0".as_slice(), "an empty payload"),
        (
            b"\x01\0\0\0\x07\x03\x01\x01a\x012\0\0".as_slice(),
            "a byte behind an entry",
        ),
        (
            b"\x01\0\0\0\x06\x03\x05\x01a\x012\0".as_slice(),
            "an unknown kind",
        ),
        (
            b"\x01\0\0\0\x05\x03\x04\0\x01\x04\x08\0".as_slice(),
            "an ingest that waits",
        ),
        (
            b"\x01\0\0\0\x06\x03\x03\x01b\x01a\0".as_slice(),
            "a span that falls",
        ),
    ] {
        let files = flushed_but(rt.alloc(), "5.log", Some(bytes))?;
        let fault = fault_of(rt.alloc(), &files, 1)?.ok_or(what)?;
        assert_eq!(rt; fault.as_str(), "5.log", "{what}");
    }
    Ok(())
}

#[test]
fn what_stands_behind_a_closed_gate_does_not_count(rt: HostRuntime) -> Result<(), Fail> {
    // The gate of the flush is closed, so that the manifest names the log before it, which is gone.
    let mut manifest = Vec::from_slice(rt.alloc(), FLUSHED)?;
    manifest[15] = 0;
    let files = flushed_but(rt.alloc(), "1.man", Some(&manifest))?;
    let fault = fault_of(rt.alloc(), &files, 1)?.ok_or("it stands for something")?;
    assert_eq!(rt; fault.as_str(), "3.log");
    // And where that is there, it is the new store.
    let mut files = files;
    add(rt.alloc(), &mut files, "3.log", b"\0")?;
    let (count, pairs) = stands(rt.alloc(), &files, &[], 1)?;
    assert_eq!(rt; count, 0);
    assert_eq!(rt; pairs.len(), 0);
    Ok(())
}
