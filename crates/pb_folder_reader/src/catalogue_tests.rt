// Catalogues by themselves, and the bytes of numbers under which an object stands.
use crate::catalogue::entries_of;
use crate::tests::{CURRENT, FLUSHED, TABLE, add, damaged, flushed_but};
use crate::{File, stands};
use pb_gate_log::payloads;
use pb_names::Name;
use std::alloc::{AllocError, Global};
use std::test::Fail;

// How many objects stand, if the file says a catalogue of the store 1.
fn standing(alloc: Global, file: &[u8]) -> Result<Option<usize>, AllocError> {
    let list = payloads(alloc, file)?;
    let Some(entries) = entries_of(alloc, &list, 1)? else {
        return Ok(None);
    };
    Ok(Some(entries.len()))
}

#[test]
fn entries_come_and_go(rt: HostRuntime) -> Result<(), Fail> {
    for (file, count, what) in [
        (
            b"\x01\0\0\0\x02\x01\x01\0".as_slice(),
            Some(0),
            "the id alone",
        ),
        (
            b"\x01\0\0\0\x02\x01\x01\x01\0\0\0\x04\x02\x05\x01\x05\0",
            Some(1),
            "an object",
        ),
        (
            b"\x01\0\0\0\x02\x01\x01\x01\0\0\0\x04\x02\x05\x01\x05\x01\0\0\0\x02\x04\x05\0",
            Some(0),
            "and it is dropped",
        ),
        (
            b"\x01\0\0\0\x02\x01\x01\x01\0\0\0\x04\x02\x05\x01\x05\x01\0\0\0\x04\x02\x06\x02\x09\0",
            Some(2),
            "and another",
        ),
        (
            b"\x01\0\0\0\x02\x01\x01\x01\0\0\0\x04\x02\x05\x01\x05\x01\0\0\0\x04\x02\x05\x02\x09\0",
            None,
            "a number twice",
        ),
        (
            b"\x01\0\0\0\x02\x01\x01\x01\0\0\0\x02\x04\x05\0",
            None,
            "a drop of what doesn't stand",
        ),
        (
            b"\x01\0\0\0\x02\x01\x01\x01\0\0\0\x04\x02\x05\x09\x05\0",
            None,
            "creator 9",
        ),
        (
            b"\x01\0\0\0\x02\x01\x01\x01\0\0\0\x04\x03\x05\x01a\0",
            None,
            "kind 3",
        ),
        (
            b"\x01\0\0\0\x02\x01\x01\x01\0\0\0\x02\x01\x01\0",
            None,
            "the id twice",
        ),
        (b"\x01\0\0\0\x02\x01\x02\0", None, "another id"),
    ] {
        assert!(rt; standing(rt.alloc(), file)? == count, "{what}");
    }
    Ok(())
}

// A store after a flush, in which the object 9 of store 1 stands under the number of the table.
fn carved(alloc: Global, file: Option<&[u8]>) -> Result<Vec<File>, AllocError> {
    let mut files = Vec::new(alloc);
    add(alloc, &mut files, "CURRENT", CURRENT)?;
    add(alloc, &mut files, "1.man", FLUSHED)?;
    add(
        alloc,
        &mut files,
        "2.cat",
        b"\x01\0\0\0\x02\x01\x01\x01\0\0\0\x04\x02\x04\x01\x09\0",
    )?;
    add(alloc, &mut files, "5.log", b"\0")?;
    if let Some(bytes) = file {
        add(alloc, &mut files, "4.tbl", bytes)?;
    }
    Ok(files)
}

fn bucket(alloc: Global, object: Option<&[u8]>) -> Result<Vec<File>, AllocError> {
    let mut objects = Vec::new(alloc);
    if let Some(bytes) = object {
        add(alloc, &mut objects, "obj/1/9", bytes)?;
    }
    Ok(objects)
}

// The file that is told, where these are the bytes of `4.tbl` and of the object.
fn told(
    alloc: Global,
    file: Option<&[u8]>,
    object: Option<&[u8]>,
) -> Result<Option<Name>, AllocError> {
    let files = carved(alloc, file)?;
    let objects = bucket(alloc, object)?;
    match stands(alloc, &files, &objects, 1) {
        Ok(_found) => Ok(None),
        Err(fault) => damaged(fault),
    }
}

#[test]
fn the_place_of_a_number_is_told(rt: HostRuntime) -> Result<(), Fail> {
    let short = b"\x01\0\x01\x01a\0".as_slice();
    for (file, object, name) in [
        (Some(TABLE), None, "4.tbl"),
        (Some(TABLE), Some(TABLE), "4.tbl"),
        (None, None, "obj/1/9"),
        (None, Some(short), "obj/1/9"),
        // All is there, and no entry may stand yet.
        (None, Some(TABLE), "2.cat"),
    ] {
        let told = told(rt.alloc(), file, object)?.ok_or("it stands for something")?;
        assert_eq!(rt; told.as_str(), name);
    }
    Ok(())
}

#[test]
fn an_entry_that_is_not_reserved_is_told(rt: HostRuntime) -> Result<(), Fail> {
    for (number, name) in [(63, "2.cat"), (64, "2.cat")] {
        let catalogue = [1, 0, 0, 0, 2, 1, 1, 1, 0, 0, 0, 4, 2, number, 1, 9, 0];
        let files = flushed_but(rt.alloc(), "2.cat", Some(&catalogue))?;
        match stands(rt.alloc(), &files, &[], 1) {
            Ok(_found) => return Err(Fail::from("it stands for something")),
            Err(fault) => {
                let file = damaged(fault)?.ok_or("no file")?;
                assert_eq!(rt; file.as_str(), name);
            }
        }
    }
    Ok(())
}

#[test]
fn entries_that_are_gone_again_leave_a_folder_that_stands(rt: HostRuntime) -> Result<(), Fail> {
    let files = flushed_but(
        rt.alloc(),
        "2.cat",
        Some(b"\x01\0\0\0\x02\x01\x01\x01\0\0\0\x04\x02\x04\x01\x09\x01\0\0\0\x02\x04\x04\0"),
    )?;
    let (count, pairs) = stands(rt.alloc(), &files, &[], 1)?;
    assert_eq!(rt; count, 2);
    assert_eq!(rt; pairs.len(), 1);
    Ok(())
}
