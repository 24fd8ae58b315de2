use super::tests::{CURRENT, FLUSHED, TABLE, add, damaged, value_of};
use crate::{File, stands};
use pb_names::Name;
use std::alloc::{AllocError, Global};
use std::test::Fail;

// The edit of an excise at count 3 that leaves of the table 4, from `a` to `b`, the part from `a` to `a!` as table 6 over the
// backing 4 of 8 bytes: docs/FORMATS.md, "Edits".
const EXCISE: &[u8] = b"\x01\x03\x06\0\x04\x08\0\x06\x04\x04\x01a\x02a!\0\0\x09\x04\x08";
// And one that leaves the part from `a!` to `b`.
const EXCISE_OF_ITS_ROW: &[u8] = b"\x01\x03\x06\0\x04\x08\0\x06\x04\x04\x02a!\x01b\0\0\x09\x04\x08";

// The manifest of a store after a flush, with this edit of 20 bytes behind it.
fn manifest_with(alloc: Global, edit: &[u8]) -> Result<Vec<u8>, AllocError> {
    let mut manifest = Vec::new(alloc);
    manifest.extend_from_slice(&FLUSHED[..FLUSHED.len() - 1])?;
    manifest.extend_from_slice(b"\x01\0\0\0\x14")?;
    manifest.extend_from_slice(edit)?;
    manifest.push(0)?;
    Ok(manifest)
}

// A store after a flush and this edit, with these bytes of the table 4, or without its file.
fn carved(alloc: Global, edit: &[u8], table: Option<&[u8]>) -> Result<Vec<File>, AllocError> {
    let manifest = manifest_with(alloc, edit)?;
    let mut files = Vec::new(alloc);
    add(alloc, &mut files, "CURRENT", CURRENT)?;
    add(alloc, &mut files, "1.man", manifest.as_slice())?;
    add(alloc, &mut files, "2.cat", b"\x01\0\0\0\x02\x01\x01\0")?;
    add(alloc, &mut files, "5.log", b"\0")?;
    if let Some(bytes) = table {
        add(alloc, &mut files, "4.tbl", bytes)?;
    }
    Ok(files)
}

fn fault_of(alloc: Global, edit: &[u8], table: Option<&[u8]>) -> Result<Option<Name>, AllocError> {
    let files = carved(alloc, edit, table)?;
    match stands(alloc, &files, &[], 1) {
        Ok(_found) => Ok(None),
        Err(fault) => damaged(fault),
    }
}

#[test]
fn a_virtual_table_shows_its_part(rt: HostRuntime) -> Result<(), Fail> {
    for (edit, len, a) in [
        (EXCISE, 1, b"1".as_slice()),
        (EXCISE_OF_ITS_ROW, 0, b"-".as_slice()),
    ] {
        let files = carved(rt.alloc(), edit, Some(TABLE))?;
        let (count, pairs) = stands(rt.alloc(), &files, &[], 1)?;
        assert_eq!(rt; count, 3);
        assert_eq!(rt; pairs.len(), len);
        assert_eq!(rt; value_of(rt.alloc(), &pairs, b"a")?, a);
    }
    Ok(())
}

#[test]
fn a_backing_without_its_bytes_is_at_fault(rt: HostRuntime) -> Result<(), Fail> {
    let longer = b"\x01\0\x01\x01a\x01\x0211".as_slice();
    for (table, what) in [(None, "no file"), (Some(longer), "another size")] {
        let name = fault_of(rt.alloc(), EXCISE, table)?.ok_or(what)?;
        assert_eq!(rt; name.as_str(), "4.tbl", "{what}");
    }
    Ok(())
}

#[test]
fn a_virtual_table_off_its_rules_is_at_fault(rt: HostRuntime) -> Result<(), Fail> {
    for (place, byte, what) in [
        (19, 9, "a backing of another size than the table's"),
        (9, 5, "a number that is no backing's"),
        (11, b'b', "bounds that are no span"),
        (14, b'@', "an end with an at sign"),
    ] {
        let mut edit = Vec::from_slice(rt.alloc(), EXCISE)?;
        edit[place] = byte;
        let name = fault_of(rt.alloc(), &edit, Some(TABLE))?.ok_or(what)?;
        assert_eq!(rt; name.as_str(), "1.man", "{what}");
    }
    Ok(())
}
