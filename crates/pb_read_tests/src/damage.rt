// What look-ups tell of files and objects that are no tables, that are gone, and of devices that fail.
use super::asked::{answers, assert_fault, assert_unasked};
use super::store::{FIRST, OBJECT, Store, make_table, new_store};
use pb_devices::Bucket;
use pb_mem::{MemBucket, MemDisk};
use pb_names::{FileKind, file, object};
use pb_read::ReadFault;
use std::alloc::{AllocError, Global};
use std::process::Abort;
use std::test::Fail;

/// The edit that brings the table 4, of a to b, and its bytes, with the row a.
const EDIT: &[u8] = b"\x07\0\x04\x04\x08\x01a\x01b";

const TABLE: &[u8] = b"\x01\0\x01\x01a\x01\x011";

fn store_of(rt: &impl Abort, alloc: Global, shared: bool) -> Result<Store, Fail> {
    new_store(rt, alloc, &[FIRST, EDIT], shared)
}

/// Asserts that the table is damaged, and that a key outside its bounds is looked up all the same.
fn assert_damaged(rt: &impl Abort, alloc: Global, store: &mut Store) -> Result<(), Fail> {
    let fault = ReadFault::Damaged(file(FileKind::Table, 4));
    assert_fault(rt, alloc, store, b"a", fault)?;
    assert_unasked(rt, alloc, store, b"b")
}

fn assert_file_damaged(rt: &impl Abort, alloc: Global, bytes: &[u8]) -> Result<(), Fail> {
    let mut store = store_of(rt, alloc, false)?;
    make_table(rt, &mut store, 4, bytes)?;
    assert_damaged(rt, alloc, &mut store)
}

#[test]
fn a_file_one_byte_short_is_damaged(rt: HostRuntime) -> Result<(), Fail> {
    assert_file_damaged(&rt, rt.alloc(), b"\x01\0\x01\x01a\x01\x01")
}

#[test]
fn a_file_of_another_format_is_damaged(rt: HostRuntime) -> Result<(), Fail> {
    assert_file_damaged(&rt, rt.alloc(), b"\x02\0\x01\x01a\x01\x011")
}

#[test]
fn an_absent_file_is_damaged(rt: HostRuntime) -> Result<(), Fail> {
    let alloc = rt.alloc();
    let mut store = store_of(&rt, alloc, false)?;
    assert_damaged(&rt, alloc, &mut store)
}

#[test]
fn a_file_that_grew_is_answered_from_its_first_bytes(rt: HostRuntime) -> Result<(), Fail> {
    let alloc = rt.alloc();
    let mut store = store_of(&rt, alloc, false)?;
    make_table(&rt, &mut store, 4, b"\x01\0\x01\x01a\x01\x011grown")?;
    let said = answers(alloc, &mut store, b"a", Some(b"1"), (1, 0))?;
    assert!(rt; said);
    Ok(())
}

/// The store whose table 4 is the object 1/4, of these bytes.
fn shared_store(rt: &impl Abort, alloc: Global, bytes: &[u8]) -> Result<Store, Fail> {
    let mut store = store_of(rt, alloc, true)?;
    store.bucket.put(object(&OBJECT).as_str(), bytes)?;
    Ok(store)
}

#[test]
fn an_object_is_read_where_an_entry_names_it(rt: HostRuntime) -> Result<(), Fail> {
    let alloc = rt.alloc();
    let mut store = shared_store(&rt, alloc, TABLE)?;
    let said = answers(alloc, &mut store, b"a", Some(b"1"), (0, 1))?;
    assert!(rt; said);
    Ok(())
}

#[test]
fn an_object_of_another_size_is_damaged(rt: HostRuntime) -> Result<(), Fail> {
    let alloc = rt.alloc();
    let mut store = shared_store(&rt, alloc, b"\x01")?;
    let fault = ReadFault::Damaged(object(&OBJECT));
    assert_fault(&rt, alloc, &mut store, b"a", fault)
}

#[test]
fn a_deleted_object_is_missing(rt: HostRuntime) -> Result<(), Fail> {
    let alloc = rt.alloc();
    let mut store = shared_store(&rt, alloc, TABLE)?;
    store.bucket.delete(object(&OBJECT).as_str())?;
    let fault = ReadFault::Missing(object(&OBJECT));
    assert_fault(&rt, alloc, &mut store, b"a", fault)?;
    assert_unasked(&rt, alloc, &mut store, b"b")
}

fn first_call(alloc: Global) -> Result<Vec<u64>, AllocError> {
    let mut calls = Vec::new(alloc);
    calls.push(1)?;
    Ok(calls)
}

#[test]
fn a_disk_that_fails_is_told(rt: HostRuntime) -> Result<(), Fail> {
    let alloc = rt.alloc();
    let mut store = store_of(&rt, alloc, false)?;
    store.disk = MemDisk::new(alloc, first_call(alloc)?, 0);
    assert_unasked(&rt, alloc, &mut store, b"b")?;
    assert_fault(&rt, alloc, &mut store, b"a", ReadFault::Disk)
}

#[test]
fn a_bucket_that_fails_is_told(rt: HostRuntime) -> Result<(), Fail> {
    let alloc = rt.alloc();
    let mut store = store_of(&rt, alloc, true)?;
    store.bucket = MemBucket::new(alloc, first_call(alloc)?);
    assert_unasked(&rt, alloc, &mut store, b"b")?;
    assert_fault(&rt, alloc, &mut store, b"a", ReadFault::Bucket)
}
