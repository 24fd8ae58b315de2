// Folders that differ where nothing is named, and folders that differ where something is.
use crate::stands;
use crate::tests::{add, damaged, flushed_but, value_of};
use std::test::Fail;

#[test]
fn what_nothing_names_does_not_count(rt: HostRuntime) -> Result<(), Fail> {
    for (name, bytes) in [
        ("9.tbl", b"\x01\0\x01\x01a\x01\x019".as_slice()),
        (
            "7.man",
            b"\x01\0\0\0\x0a\x01\0\x02\x40\x03\x03\x04\0\x05\x01\0",
        ),
        ("CURRENT.old", b"\x01\0\0\0\x02\x07\x02\0"),
    ] {
        let mut files = flushed_but(rt.alloc(), "", None)?;
        add(rt.alloc(), &mut files, name, bytes)?;
        let (count, pairs) = stands(rt.alloc(), &files, &[], 1)?;
        assert_eq!(rt; count, 2, "{name}");
        assert_eq!(rt;
            value_of(rt.alloc(), &pairs, b"a")?,
            b"1".as_slice(),
            "{name}"
        );
    }
    Ok(())
}

#[test]
fn old_bytes_behind_a_shut_gate_do_not_count(rt: HostRuntime) -> Result<(), Fail> {
    // The gate is shut, and behind it stands a set of `a` to `2`.
    let files = flushed_but(
        rt.alloc(),
        "5.log",
        Some(b"\0\0\0\0\x06\x03\x01\x01a\x012\0"),
    )?;
    let (count, pairs) = stands(rt.alloc(), &files, &[], 1)?;
    assert_eq!(rt; count, 2);
    assert_eq!(rt; value_of(rt.alloc(), &pairs, b"a")?, b"1".as_slice());
    Ok(())
}

#[test]
fn a_changed_byte_of_a_table_counts(rt: HostRuntime) -> Result<(), Fail> {
    let files = flushed_but(rt.alloc(), "4.tbl", Some(b"\x01\0\x01\x01a\x01\x012"))?;
    let (count, pairs) = stands(rt.alloc(), &files, &[], 1)?;
    assert_eq!(rt; count, 2);
    assert_eq!(rt; value_of(rt.alloc(), &pairs, b"a")?, b"2".as_slice());
    Ok(())
}

#[test]
fn an_emptied_pointer_makes_a_new_store(rt: HostRuntime) -> Result<(), Fail> {
    let files = flushed_but(rt.alloc(), "CURRENT", Some(b"\0"))?;
    let (count, pairs) = stands(rt.alloc(), &files, &[], 1)?;
    assert_eq!(rt; count, 0);
    assert_eq!(rt; pairs.len(), 0);
    Ok(())
}

#[test]
fn a_log_that_is_gone_is_told(rt: HostRuntime) -> Result<(), Fail> {
    let files = flushed_but(rt.alloc(), "5.log", None)?;
    match stands(rt.alloc(), &files, &[], 1) {
        Ok(_found) => Err(Fail::from("it stands for something")),
        Err(fault) => {
            let file = damaged(fault)?.ok_or("no file")?;
            assert_eq!(rt; file.as_str(), "5.log");
            Ok(())
        }
    }
}
